//! National values (packet 3).
ghost use Rattle.std.specs.Prelude.{◌≡◌, List};
ghost use Rattle.national.specs.InForce.{NationalEntry, known};
ghost use Rattle.national.specs.Values.{ValuesFor};
ghost use Rattle.track_picture.specs.Columns.{after_values};
ghost use Rattle.track_picture.specs.Steps.{fact_of};

use crate::using::Use;
use national::National;
use packets::Packet;

/// Takes a packet, where it has national values.
pub fn take(national: &mut National, packet: &Packet<'_>, used: &Use)
    ensures { (kept : ValuesFor) (entries : List NationalEntry) → national.old ≡ known kept entries
        → national.new ≡ known kept (after_values (fact_of used.now packet.now) entries) }
{
    if let Packet::NationalValues(packet) = packet {
        national.announce(packet, used.group.country, used.place);
    }
}
