ghost use Rattle.std.specs.Prelude.{◌≡◌, ◌≤◌, true};
ghost use Rattle.std.specs.List.{list_all};
ghost use Rattle.arrayvec.specs.ArrayVec.{array_vec_len};
ghost use Rattle.rulefile.specs.Bounds.{ordered};
ghost use Rattle.rulefile.specs.Tables.{rules as rules_of, bounded as inside};

use crate::table::Table;

// The grammar of a rule file: tables of fixed size that keep the law of grammars. It is made whole when a file is loaded.
#[derive(Drop)]
pub struct LoadedGrammar {
    pub(crate) table: Table,
    ghost some: { (1 ≤ array_vec_len table.names) × (1 ≤ array_vec_len table.terminals.list) × (1 ≤ array_vec_len table.rules) },
    ghost few: { (array_vec_len table.names ≤ 16) × (array_vec_len table.terminals.list ≤ 32) × (array_vec_len table.rules ≤ 64) },
    ghost bounded: { inside table.names table.terminals table.rules ≡ true },
    ghost in_order: { list_all ordered (rules_of table.rules) ≡ true },
}
