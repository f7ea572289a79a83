//! Movement authorities (packet 12).
ghost use Rattle.std.specs.Prelude.{◌≡◌, List};
ghost use Rattle.authority.specs.Entries.{AuthorityEntry};
ghost use Rattle.authority.specs.Known.{known};
ghost use Rattle.track_picture.specs.Entry.{Fact};
ghost use Rattle.track_picture.specs.Columns.{after_authority, after_stop};
ghost use Rattle.track_picture.specs.Steps.{fact_of};

use crate::using::Use;
use authority::Authority;
use packets::Packet;
use vars::Variable;

/// Takes a packet, where it is an authority.
pub fn take(authority: &mut Authority, packet: &Packet<'_>, used: &Use)
    ensures { (entries : List AuthorityEntry) → authority.old ≡ known entries
        → authority.new ≡ known (after_authority (fact_of used.now packet.now) entries) }
{
    if let Packet::MovementAuthority(packet) = packet {
        authority.accept(packet, used.place, used.moment);
    }
}

/// Takes note of an authority whose speed is 0.
pub fn note_stop(stopped: &mut bool, packet: &Packet<'_>)
    ensures { (fact : Fact) → fact.packet ≡ packet.now → stopped.new ≡ after_stop fact stopped.old }
{
    if let Packet::MovementAuthority(packet) = packet {
        if packet.speed.number() == 0 {
            *stopped = true;
        }
    }
}
