//! Where the bytes of a sector stand among those of the requests.
ghost use Rattle.std.specs.Prelude.{◌≡◌, ◌+◌, ◌≤◌, length, All, IfSome};
ghost use Rattle.disk.specs.Record.{IsWithin};
ghost use Rattle.request_disk.specs.Requests.{found_next, found_in};

use disk::{Call, SECTOR_BYTES};

// Where the bytes of a sector stand, with one request more.
fn found_after(
    at: Option<usize>,
    request: Call,
    sector: u64,
    sectors: u64,
    written: usize,
) -> Option<usize>
    requires { IsWithin sectors written request }
    ensures { result ≡ found_next sector at request }
{
    match request {
        Call::Written(span) => {
            if span.first <= sector && sector - span.first < span.sectors {
                Some(span.from + SECTOR_BYTES * (sector - span.first) as usize)
            } else {
                at
            }
        }
        Call::Quiet | Call::Synced | Call::Torn(_) => at,
    }
}

/// Where the bytes of a sector stand among those that are written, None where none is. The caller owes requests whose
/// sectors and bytes are there.
pub fn found(requests: &[Call], sector: u64, sectors: u64, written: usize) -> Option<usize>
    requires { All (IsWithin sectors written) requests.now }
    ensures found { result ≡ found_in sector requests.now }
    ensures there { IfSome result (λ at. at + 512 ≤ written) }
{
    let mut at = None;
    for request in requests {
        at = found_after(at, *request, sector, sectors, written);
    }
    at
}
