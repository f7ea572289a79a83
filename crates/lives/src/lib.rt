//! The lives of a journal: one walk over the blocks that an image retains, which gives a visitor what it sees, block by
//! block and record by record (this project's profile; `docs/reference/format.md`). It writes nothing to the disk, and takes no
//! memory. Slots and events are numbered from 0, blocks from 1.
#![tactic(auto)]

mod errors;
mod reading;
mod seeing;
mod visit;
mod walking;

pub use errors::{LateError, WalkError, late};
pub use reading::held;
pub use seeing::number_of_life;
pub use visit::{Seen, Unknown, Visit};
pub use walking::{walk, walk_from};
