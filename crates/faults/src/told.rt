ghost use Rattle.std.specs.Prelude.{◌≡◌};
ghost use Rattle.faults.specs.Told.{told, shown};

use crate::fault::{Fault, Layer, Place, Position};

impl Fault {
    // The fault's number in the closed list.
    pub fn number(&self) -> u8
        ensures { result ≡ (told self.now).number }
    {
        match self {
            Fault::FileBytes => 1,
            Fault::FileNames => 2,
            Fault::ValueCount(_) => 3,
            Fault::ValueForm(_) => 4,
            Fault::ItemGap(_) => 5,
            Fault::GrammarSize => 6,
            Fault::UnitRule(_) => 7,
            Fault::StepWidth => 8,
            Fault::AlreadyLaid => 9,
            Fault::NoNode => 10,
            Fault::GrammarMismatch => 11,
            Fault::TextTooLong => 12,
            Fault::NoPiece(_) => 13,
            Fault::PieceOutOfBounds(_) => 14,
            Fault::PieceCount => 15,
            Fault::NoTerminal(_) => 16,
            Fault::ShortMemory(_) => 17,
            Fault::NoReading(_) => 18,
            Fault::TooDeep { .. } => 19,
            Fault::WrongSlip => 20,
            Fault::NoRoom => 21,
        }
    }

    // The part of the engine that refuses.
    pub fn layer(&self) -> Layer
        ensures { result ≡ (told self.now).layer }
    {
        match self {
            Fault::FileBytes | Fault::FileNames | Fault::ValueCount(_) | Fault::ValueForm(_) =>
                Layer::RuleFile,
            Fault::ItemGap(_) | Fault::GrammarSize | Fault::UnitRule(_) => Layer::RuleFile,
            Fault::StepWidth => Layer::Policy,
            Fault::AlreadyLaid | Fault::NoNode | Fault::GrammarMismatch => Layer::Galley,
            Fault::ShortMemory(_) | Fault::WrongSlip => Layer::Galley,
            Fault::TextTooLong | Fault::NoPiece(_) | Fault::PieceOutOfBounds(_) => Layer::Text,
            Fault::PieceCount | Fault::NoTerminal(_) => Layer::Text,
            Fault::NoReading(_) => Layer::Chart,
            Fault::TooDeep { .. } => Layer::Layout,
            Fault::NoRoom => Layer::Output,
        }
    }

    // What the fault points at.
    pub fn place(&self) -> Place
        ensures { result ≡ (told self.now).place }
    {
        match self {
            Fault::FileNames => Place::Line(1),
            Fault::ValueCount(line) | Fault::ValueForm(line) => Place::Line(*line),
            Fault::ItemGap(line) | Fault::UnitRule(line) => Place::Line(*line),
            Fault::NoPiece(at) | Fault::PieceOutOfBounds(at) => Place::At(*at),
            Fault::NoTerminal(at) | Fault::NoReading(at) => Place::At(*at),
            Fault::ShortMemory(memory) => Place::Short(*memory),
            Fault::TooDeep { rule, item } => Place::Item {
                rule: *rule,
                item: *item,
            },
            Fault::FileBytes | Fault::GrammarSize | Fault::StepWidth | Fault::AlreadyLaid =>
                Place::Nowhere,
            Fault::NoNode | Fault::GrammarMismatch | Fault::TextTooLong | Fault::PieceCount =>
                Place::Nowhere,
            Fault::WrongSlip | Fault::NoRoom => Place::Nowhere,
        }
    }
}

impl Place {
    // Line and column of the place; 0 for what it lacks.
    pub fn position(&self) -> Position
        ensures { result ≡ shown self.now }
    {
        match self {
            Place::Line(line) => Position {
                line: *line,
                column: 0,
            },
            Place::At(at) => *at,
            Place::Nowhere | Place::Short(_) | Place::Item { .. } => Position::default(),
        }
    }
}
