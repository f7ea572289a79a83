//! Temporary speed restrictions (packet 65).
ghost use Rattle.std.specs.Prelude.{◌≡◌, ◌≤◌, ◌+◌, List};
ghost use Rattle.track_store.specs.Restrictions.{RestrictionEntry, in_force};
ghost use Rattle.track_picture.specs.Live.{restriction_of};
ghost use Rattle.track_picture.specs.Columns.{after_restriction};
ghost use Rattle.track_picture.specs.Steps.{fact_of};

use crate::using::Use;
use packets::{Packet, SpeedRestriction};
use track_store::{Restriction, Restrictions};
use units::GroupPlace;

// A restriction where it lies on the track, its group being at a place.
fn restriction_of(packet: &SpeedRestriction, at: GroupPlace) -> Restriction
    ensures { result ≡ restriction_of at packet.now }
{
    Restriction {
        number: packet.number,
        start: at.ahead(packet.start.in_scale(packet.scale)),
        length: packet.length.in_scale(packet.scale),
        delay: packet.delay,
        speed: packet.speed.speed(),
    }
}

/// Takes a packet, where it is a restriction, in the space for one.
pub fn take(restrictions: &mut Restrictions, packet: &Packet<'_>, used: &Use)
    requires { 1 ≤ restrictions.old.space }
    ensures track { (entries : List RestrictionEntry) → restrictions.old.track ≡ in_force entries
        → restrictions.new.track ≡ in_force (after_restriction (fact_of used.now packet.now) entries) }
    ensures space { restrictions.old.space ≤ restrictions.new.space + 1 }
{
    let Packet::SpeedRestriction(packet) = packet else {
        return;
    };
    restrictions.add_reserved(restriction_of(packet, used.place));
}
