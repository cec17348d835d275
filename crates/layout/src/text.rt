ghost use Rattle.std.specs.Prelude.{◌≡◌, ◌≤◌, ◌++◌, length, drop};
ghost use Rattle.layout.specs.Text.{Written, text};

use crate::lead::{lead_length, reached_behind};
use crate::line_writer::LineWriter;
use tree::contents::Contents;

// How many bytes the text of laid-out pieces has.
pub fn text_length(contents: &Contents) -> u16
    ensures { result ≡ length (text 0 contents.now.pieces.now contents.now.bytes.now) }
{
    // No sum: what comes before a piece depends on the column that the piece before it reached.
    let mut length = 0;
    let mut reached = 0;
    for piece in contents.pieces {
        length += lead_length(reached, piece) + piece.length as u16;
        reached = reached_behind(piece);
    }
    length + 1
}

// Writes the text of laid-out pieces to the front of a part that has room for it.
fn emit(contents: &Contents, out: &mut [u8])
    requires { length (text 0 contents.now.pieces.now contents.now.bytes.now) ≤ length out.old }
    ensures { out.new ≡ text 0 contents.now.pieces.now contents.now.bytes.now
        ++ drop (length (text 0 contents.now.pieces.now contents.now.bytes.now)) out.old }
{
    let mut writer = LineWriter {
        out,
        position: 0,
        reached: 0,
    };
    for (piece, bytes) in contents.parts() {
        writer.piece(piece, bytes);
    }
    writer.put(b'\n');
}

// Writes the text of laid-out pieces to the front of a part of a buffer and answers its length;
// none, and nothing written, where the part is too short.
pub fn write_text(contents: &Contents, out: &mut [u8]) -> Option<usize>
    ensures { Written (text 0 contents.now.pieces.now contents.now.bytes.now)
        out.old out.new result }
{
    let length = text_length(contents) as usize;
    if length > out.len() {
        return None;
    }
    emit(contents, out);
    Some(length)
}
