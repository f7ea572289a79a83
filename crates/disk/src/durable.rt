//! A write that is on the medium when it returns.
ghost use Rattle.std.specs.Prelude.{◌≡◌, ◌+◌, ◌/◌, length, IsTrue, OnOk, is_err};
ghost use Rattle.disk.specs.State.{contents_of, AreSectors, Counted, Touches, Holds, IsSynced, AtEachMoment, SameBut};
ghost use Rattle.disk.specs.Reserve.{Spends};

use crate::{DiskFault, WriteDisk};

/// Writes whole sectors and syncs: at Ok they hold these bytes, and no sector is open (this project's profile). It
/// stops at the first DiskFault, after which the sectors may hold any bytes. The caller owes sectors of this disk
/// (`are_sectors`).
pub fn put<D: WriteDisk>(disk: &mut D, first: u64, bytes: &[u8]) -> Result<(), DiskFault>
    requires { AreSectors first (length bytes.now) (D.state disk.old).sectors }

    ensures counted { Counted (is_err result) (D.state disk.old) (D.state disk.new) }
    ensures spent { Spends (length bytes.now / 512 + 1) (is_err result) (D.reserve disk.old) (D.reserve disk.new) }

    // At each moment the medium is as it was, but for these sectors.
    ensures moments { IsTrue (D.state disk.old).honest → Touches first (length bytes.now) (D.state disk.old) (D.state disk.new) }

    // Wherever power is lost, these sectors may hold any bytes, and the others hold what they held.
    ensures any_moment { IsTrue (D.state disk.old).honest → IsSynced (D.state disk.old) →
        AtEachMoment (D.state disk.old) (D.state disk.new) (SameBut first (length bytes.now) (contents_of (D.state disk.old))) }

    ensures others { IsTrue (D.state disk.old).honest →
        SameBut first (length bytes.now) (contents_of (D.state disk.old)) (contents_of (D.state disk.new)) }

    ensures synced { IsTrue (D.state disk.old).honest → OnOk result (IsSynced (D.state disk.new)) }

    ensures written { IsTrue (D.state disk.old).honest → OnOk result (Holds (contents_of (D.state disk.new)) first bytes.now) }
{
    disk.write(first, bytes)?;
    disk.sync()?;
    Ok(())
}
