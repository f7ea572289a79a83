//! Requests as C gets them, and the cold movement values that it hands in.
ghost use Rattle.std.specs.Prelude.{◌≡◌};
ghost use Rattle.unit_calls.specs.Requests.{Writes, read_of};
ghost use Rattle.unit_calls.specs.ColdNumbers.{cold_by};

use crate::status::Status;
use mode_table::Cold;

/// Something to be done on the medium.
#[repr(C)]
#[derive(Clone, Copy)]
pub struct EtcsRequest {
    /// Of a write: its first sector; of a read: the sector; else 0.
    pub sector: u64,
    /// Of a write: how many sectors; of a read: 1; else 0.
    pub sectors: u64,
    /// 1 write, 2 sync, 3 read.
    pub kind: u64,
}

/// Reports a write of so many sectors from this one on, and copies its bytes into a buffer for them.
pub fn describe_write(
    sector: u64,
    sectors: u64,
    written: &[u8],
    request: &mut EtcsRequest,
    bytes: &mut [u8],
) -> Status
    ensures { Writes sector sectors written.now
        (record { request = request.old; reported = request.new; caller_buffer = bytes.old; bytes = bytes.new; status = result }) }
{
    if bytes.len() < written.len() {
        return Status::NoRoom;
    }
    bytes[..written.len()].copy_from_slice(written);
    *request = EtcsRequest {
        sector,
        sectors,
        kind: 1,
    };
    Status::Done
}

/// To sync.
pub fn sync() -> EtcsRequest
    ensures { result ≡ record { sector = 0; sectors = 0; kind = 2 } }
{
    EtcsRequest {
        sector: 0,
        sectors: 0,
        kind: 2,
    }
}

/// To read this sector.
pub fn read_of(sector: u64) -> EtcsRequest
    ensures { result ≡ read_of sector }
{
    EtcsRequest {
        sector,
        sectors: 1,
        kind: 3,
    }
}

/// The cold movement value of a number, 0 to 2.
pub fn cold_of_number(number: u32) -> Option<Cold>
    ensures { result ≡ cold_by number }
{
    match number {
        0 => Some(Cold::Unknown),
        1 => Some(Cold::Moved),
        2 => Some(Cold::NotMoved),
        _ => None,
    }
}
