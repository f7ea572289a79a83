//! Revocations of temporary speed restrictions (packet 66).
ghost use Rattle.std.specs.Prelude.{◌≡◌, List};
ghost use Rattle.track_store.specs.Restrictions.{RestrictionEntry, in_force};
ghost use Rattle.track_picture.specs.Columns.{after_revocation};
ghost use Rattle.track_picture.specs.Steps.{fact_of};

use crate::using::Use;
use packets::Packet;
use track_store::Restrictions;

/// Takes a packet, where it is a revocation.
pub fn take(restrictions: &mut Restrictions, packet: &Packet<'_>, used: &Use)
    ensures track { (entries : List RestrictionEntry) → restrictions.old.track ≡ in_force entries
        → restrictions.new.track ≡ in_force (after_revocation (fact_of used.now packet.now) entries) }
    ensures space { restrictions.new.space ≡ restrictions.old.space }
{
    if let Packet::RestrictionRevocation(packet) = packet {
        restrictions.revoke(packet.number);
    }
}
