ghost use Rattle.std.specs.Prelude.{◌≡◌, length};
ghost use Rattle.std.specs.List.{slice_get};
ghost use Rattle.grammar.specs.Model.{Model, terminal_of};
ghost use Rattle.grammar.specs.Lawful.{Lawful};

use crate::rule::Rule;

// What the engine asks of a language. All answers are those of one lawful model.
pub trait Grammar {
    ghost model: { Self → Model };

    // How many nonterminals there are.
    fn nonterminals(&self) -> u8
        ensures { result ≡ (model self.now).nonterminals };

    // How many terminals there are.
    fn terminals(&self) -> u8
        ensures { result ≡ length (model self.now).terminals };

    // How many rules there are.
    fn rules(&self) -> u8
        ensures { result ≡ length (model self.now).rules };

    // The rule of that number, its left symbol and items; none past the count.
    fn rule(&self, number: u8) -> Option<Rule>
        ensures { result ≡ slice_get (model self.now).rules number };

    // The terminal of a piece with these bytes.
    fn terminal(&self, bytes: &[u8]) -> Option<u8>
        ensures { result ≡ terminal_of (model self.now) bytes.now };

    ghost lawful: { (g : Self) → Lawful (model g) };
}
