//! Mode areas (packet 80), which an authority (packet 12) deletes.
ghost use Rattle.std.specs.Prelude.{◌≡◌, List};
ghost use Rattle.areas.specs.Areas.{stored};
ghost use Rattle.areas.specs.Entries.{AreaEntry};
ghost use Rattle.track_picture.specs.Entry.{Fact};
ghost use Rattle.track_picture.specs.Columns.{after_grant, after_areas};
ghost use Rattle.track_picture.specs.Steps.{fact_of};

use crate::using::Use;
use areas::Areas;
use packets::Packet;

/// Deletes the areas, where a packet is an authority.
pub fn clear(areas: &mut Areas, packet: &Packet<'_>)
    ensures { (fact : Fact) (entries : List AreaEntry) → fact.packet ≡ packet.now → areas.old ≡ stored entries → areas.new ≡ stored (after_grant fact entries) }
{
    if let Packet::MovementAuthority(_) = packet {
        areas.clear();
    }
}

/// Takes a packet, where it has areas.
pub fn take(areas: &mut Areas, packet: &Packet<'_>, used: &Use)
    ensures { (entries : List AreaEntry) → areas.old ≡ stored entries → areas.new ≡ stored (after_areas (fact_of used.now packet.now) entries) }
{
    if let Packet::ModeProfile(packet) = packet {
        areas.replace(packet, used.place);
    }
}
