//! A layout as data: the rows of a packet's table in SUBSET-026, 7.4.2.
use crate::variable::Variable;

/// What a row's number says of the rows after it.
#[derive(Clone, Copy)]
pub enum Role {
    /// Nothing.
    Plain,
    /// How often the deeper rows after it come.
    Counter,
    /// Which rows after it come, up to the next qualifier.
    Qualifier,
    /// Which rows of the whole packet come.
    Gate,
}

/// Whether a row comes.
#[derive(Clone, Copy)]
pub enum When {
    /// It does.
    Always,
    /// Where the last qualifier has this number.
    Qualifier(u64),
    /// Where the gate has this number.
    Gate(u64),
}

/// A row: a variable, how many lists it is in, what it says of others, and whether it comes.
#[derive(Clone, Copy)]
pub struct Row {
    /// The variable.
    pub variable: Variable,
    /// How many lists it is in: 0, 1 for (k), 2 for (k, m).
    pub depth: u8,
    /// What it says of the rows after it.
    pub role: Role,
    /// Whether it comes.
    pub when: When,
}
