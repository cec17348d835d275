// A memory that a caller lends.
#[derive(Clone, Copy)]
pub enum Memory {
    Bytes,
    Pieces,
    Nodes,
    Chart,
}

// The part of the engine that refuses.
#[derive(Clone, Copy)]
pub enum Layer {
    RuleFile,
    Policy,
    Galley,
    Text,
    Chart,
    Layout,
    Output,
}

// A place in a text: lines count from 1, columns from 0.
#[derive(Clone, Copy, Default)]
pub struct Position {
    pub line: u16,
    pub column: u16,
}

// What a fault points at.
#[derive(Clone, Copy)]
pub enum Place {
    Nowhere,
    Line(u16),
    At(Position),
    Short(Memory),
    Item { rule: u8, item: u8 },
}

// Why a call declines. A case holds what the fault points at, and nothing else.
#[derive(Clone, Copy)]
pub enum Fault {
    // A rule file is too long, or holds a byte that rule files do not have.
    FileBytes,
    // The first line of a rule file does not name its seven columns.
    FileNames,
    // That line of a rule file does not split into seven values.
    ValueCount(u16),
    // A value on that line is written as its column does not allow.
    ValueForm(u16),
    // The items on that line have a hole: none comes first, one comes behind a hole, or one is only half there.
    ItemGap(u16),
    // The rule file has too few or too many nonterminals, terminals or rules.
    GrammarSize,
    // The rule on that line leads from a nonterminal to a single one that is not further down the list.
    UnitRule(u16),
    // No step policy has that width.
    StepWidth,
    // A laid galley cannot be laid again or changed.
    AlreadyLaid,
    // The galley has no such node, or there is no tree to lay or to graft.
    NoNode,
    // The grammar has no such symbol, the symbol to be grafted is not the one that is replaced, or the tree is none of the grammar's.
    GrammarMismatch,
    // The text has more bytes than a text may have.
    TextTooLong,
    // Nothing that a text may contain begins there, or the quote that begins there does not end.
    NoPiece(Position),
    // The piece there is too long, or begins too far to the right.
    PieceOutOfBounds(Position),
    // A script without pieces, or with too many of them.
    PieceCount,
    // The grammar does not know the piece there.
    NoTerminal(Position),
    // The lent memory of that kind does not suffice.
    ShortMemory(Memory),
    // The text has no reading. The place is where a reading of a beginning of the text ends, or the first piece if none has one.
    NoReading(Position),
    // The policy sets that item of that rule too far to the right.
    TooDeep { rule: u8, item: u8 },
    // The slip does not belong to this galley, or no text is kept for it.
    WrongSlip,
    // The buffer has too little room from the start on.
    NoRoom,
}
