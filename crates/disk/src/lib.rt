//! Sectors of 512 bytes, and what a loss of power may leave of them (this project's profile).
//!
//! `Disk` is the model of a device, `WriteDisk` the part of it that writes and syncs, `put` a write that is on the
//! medium when it returns, `Memory` a disk in memory that can lose power at any call, and `Liar` a disk that does not
//! keep to the model.
#![tactic(auto)]

mod choice;
mod device;
mod durable;
mod laws;
mod liar;
mod memory;
mod plan;
mod record;

pub use choice::Choice;
pub use device::{Disk, WriteDisk};
pub use durable::put;
pub use laws::settling_gives_each_image;
pub use liar::Liar;
pub use memory::{Memory, Space};
pub use plan::{Fate, Plan};
pub use record::{Call, Span};
use thiserror::Error;

/// How many bytes a sector has.
pub const SECTOR_BYTES: usize = 512;

/// The device failed in this call. What holds then is said at each call of `Disk`.
#[derive(Clone, Copy, Debug, Error)]
#[error("the device failed")]
pub struct DiskFault;
