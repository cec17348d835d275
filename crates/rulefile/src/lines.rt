ghost use Rattle.std.specs.Prelude.{◌≡◌, ◌≤◌, map, length};
ghost use Rattle.std.specs.List.{list_all};
ghost use Rattle.rulefile.specs.Built.{Built};
ghost use Rattle.rulefile.specs.Loaded.{allowed, fails, line_with, read};
ghost use Rattle.rulefile.specs.Parts.{parts};
ghost use Rattle.rulefile.specs.Reading.{row_of};

use crate::form::LineFault;
use crate::header::Header;
use crate::parts;
use crate::table::Table;

// Whether a file has only allowed bytes.
pub(crate) fn all_allowed(file: &[u8]) -> bool
    ensures { result ≡ list_all allowed file.now }
{
    file.iter().all(|byte| matches!(byte, b'\n' | b' '..=b'~'))
}

impl Header<'_> {
    // Whether a line has this fault. Whether values are missing is told before they are read.
    fn fails(&self, fault: LineFault, line: &[u8]) -> bool
        ensures { result ≡ fails fault (row_of self.now.names.now line.now) }
    {
        match fault {
            LineFault::Count => !parts::has_seven_values(line),
            LineFault::Form | LineFault::Gap => self.row(line).is_err_and(|found| found == fault),
        }
    }

    // The number of the first line that has this fault; the lines begin with number 2.
    pub(crate) fn line_with(&self, fault: LineFault, lines: &[u8]) -> Option<u16>
        requires { length lines.now ≤ 4096 }
        ensures { result ≡ line_with fault 2 (map (row_of self.now.names.now) (parts 10 lines.now)) }
    {
        let at = parts::lines(lines).position(|line| self.fails(fault, line))?;
        Some(at as u16 + 2)
    }

    // The tables of the lines that are rules; none if there are too many names, terminals or rules.
    pub(crate) fn build(&self, lines: &[u8]) -> Option<Table>
        ensures { Built (read (map (row_of self.now.names.now) (parts 10 lines.now))) result }
    {
        let mut table = Table::default();
        for line in parts::lines(lines) {
            if let Ok(row) = self.row(line) {
                table.add(row)?;
            }
        }
        Some(table)
    }
}
