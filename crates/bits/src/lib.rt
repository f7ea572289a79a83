//! Bits of bytes, taken and written from the highest on, and layouts: grammars of bits as data, whose fields
//! have the names of the language's variables.
#![tactic(auto)]

mod name;
mod reader;
mod window;
mod writer;

pub use name::VariableName;
pub use reader::{BitReader, Run};
pub use writer::{BitWriter, Full};
