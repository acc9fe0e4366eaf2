// Why a file is refused, and where.

// The four sections of a system file, by number.
#[derive(Clone, Copy, Debug, PartialEq, Eq)]
pub enum Section {
    Events = 1,
    Variables = 2,
    Automata = 3,
    Transitions = 4,
}

// Where a byte is read: its section, and its row from 1, or 0 for the section's count, which is
// a number and no Option since the refusal's line prints it so.
#[derive(Clone, Copy, Debug, PartialEq, Eq)]
pub struct Origin {
    pub section: Section,
    pub row: u16,
}

// Where a rule is broken: section, row and byte, which counts from 0 over the whole file. Three fields, as a refusal is told.
#[derive(Clone, Copy, Debug, PartialEq, Eq)]
pub struct Place {
    pub section: Section,
    pub row: u16,
    pub byte: usize,
}

// A rule that a byte of the file breaks, by number.
#[derive(Clone, Copy, Debug, PartialEq, Eq)]
pub enum FileRule {
    CountLimits = 3,
    ZeroOrOne = 4,
    VariableValues = 5,
    KnownNumber = 6,
    RisingOrder = 7,
    InAlphabet = 8,
    Expression = 9,
}

// What is wrong with a file: it ends too soon (1), bytes follow its last row (2), or a byte breaks a rule.
#[derive(Clone, Copy, Debug, PartialEq, Eq)]
pub enum FileFault {
    EndsTooSoon,
    BytesFollow,
    Breaks(FileRule),
}

// A refusal. That of a file carries what is wrong and the place; that of a buffer which is
// shorter than the text (10) carries the length needed.
#[derive(Clone, Copy, Debug, PartialEq, Eq)]
pub enum Fault {
    File(FileFault, Place),
    Buffer(usize),
}
