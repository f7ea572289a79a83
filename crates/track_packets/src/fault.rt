//! Why the fields of a packet can't be reported.
use crate::variable::Variable;

/// A field that isn't whole: its variable, and the place of its first bit in the packet, counted from 0.
#[derive(Clone, Copy)]
pub struct FieldPlace {
    /// The variable.
    pub variable: Variable,
    /// The place of its first bit, from 0 for the first bit of NID_PACKET.
    pub start: u32,
}

/// Why the fields of a packet can't be reported (SUBSET-026, 7.4.2).
#[derive(Clone, Copy)]
pub enum FieldFault {
    /// A field outside of lists goes beyond the packet's last bit.
    CutOff(FieldPlace),
    /// A field of a list does: its counter reports too many elements.
    TooMany(FieldPlace),
    /// Bits are left after the last field; the first of them stands here.
    TooLong(u32),
}
