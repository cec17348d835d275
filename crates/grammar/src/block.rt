ghost use Rattle.std.specs.Prelude.{◌≡◌};
ghost use Rattle.grammar.specs.Model.{classed, spelled, first_with};
ghost use Rattle.grammar.specs.Block.{block as language};
ghost use Rattle.pieces.specs.Kinds.{class_of};
ghost use Rattle.grammar.specs.Laws;

use crate::block_rules;
use crate::grammar::Grammar;
use crate::rule::Rule;
use pieces::piece::Class;

// The built-in block language.
#[derive(Clone, Copy)]
pub struct Block;

impl Block {
    // The nonterminal of a whole script.
    pub const SCRIPT: u8 = block_rules::SCRIPT;
}

impl Grammar for Block {
    ghost model = { λ _. language };

    ghost lawful = { λ g. Laws.lawful };

    fn nonterminals(&self) -> u8 {
        block_rules::NONTERMINALS
    }

    fn terminals(&self) -> u8 {
        block_rules::TERMINALS
    }

    fn rules(&self) -> u8 {
        block_rules::RULES.len() as u8
    }

    fn rule(&self, number: u8) -> Option<Rule> {
        block_rules::RULES.get(number as usize).copied()
    }

    fn terminal(&self, bytes: &[u8]) -> Option<u8> {
        word_terminal(bytes).or(class_terminal(bytes))
    }
}

// The terminal of the word with these bytes.
fn word_terminal(bytes: &[u8]) -> Option<u8>
    ensures { result ≡ first_with (spelled bytes.now) language.terminals }
{
    match bytes {
        b"if" => Some(block_rules::IF_WORD),
        b"loop" => Some(block_rules::LOOP_WORD),
        b"else" => Some(block_rules::ELSE_WORD),
        b":" => Some(block_rules::COLON),
        _ => None,
    }
}

// The terminal of the class that these bytes have by the first of them.
fn class_terminal(bytes: &[u8]) -> Option<u8>
    ensures { result ≡ first_with (classed (class_of bytes.now)) language.terminals }
{
    match Class::of(bytes)? {
        Class::Name => Some(block_rules::NAME),
        Class::Number => Some(block_rules::NUMBER),
        Class::Quote => Some(block_rules::QUOTE),
        Class::Sign => None,
    }
}
