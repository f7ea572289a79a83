//! The greatest size of a balise telegram, in bytes.

/// How many bytes a telegram has at most; a balise sends 832 bits (SUBSET-026, 8.4.2).
pub const TELEGRAM_BYTES: usize = 104;
