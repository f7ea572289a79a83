//! Announced levels (packet 41).
ghost use Rattle.std.specs.Prelude.{◌≡◌, List};
ghost use Rattle.areas.specs.Levels.{LevelEntry, waiting};
ghost use Rattle.track_picture.specs.Columns.{after_level};
ghost use Rattle.track_picture.specs.Steps.{fact_of};

use crate::using::Use;
use areas::AnnouncedLevel;
use packets::Packet;

/// Takes a packet, where it announces a level.
pub fn take(level: &mut AnnouncedLevel, packet: &Packet<'_>, used: &Use)
    ensures { (entries : List LevelEntry) → level.old ≡ waiting entries → level.new ≡ waiting (after_level (fact_of used.now packet.now) entries) }
{
    if let Packet::LevelTransition(packet) = packet {
        level.announce(packet, used.place);
    }
}
