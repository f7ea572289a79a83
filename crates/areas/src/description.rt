//! The areas of a mode profile are placed on the track, one after another.
ghost use Rattle.std.specs.Prelude.{◌≡◌};
ghost use Rattle.units.specs.Limits.{HasReach};
ghost use Rattle.areas.specs.Entries.{fact_of};
ghost use Rattle.areas.specs.Description.{areas_of, end_from};

use crate::Area;
use crate::areas::MOST_AREAS;
use arrayvec::ArrayVec;
use packets::ModeProfile;
use units::{Cm, GroupPlace};
use vars::{OpenLength, Scale};

/// The areas of packet 80 (SUBSET-026, 3.12.4), counted from the place of its group, in centimetres. Each D_MAMODE
/// counts from the start of the area before.
pub fn areas_of(packet: &ModeProfile, place: GroupPlace) -> ArrayVec<Area, MOST_AREAS>
    ensures { result.items ≡ areas_of (fact_of packet.now place) }
{
    let scale = packet.scale;
    let mut areas = ArrayVec::new();
    let mut at = place.to_cm();
    let reported = packet.areas.as_slice();
    for area in reported {
        at = at.ahead(area.distance.in_scale(scale));
        areas.push(Area {
            mode: area.mode,
            start: at,
            end: end_from(at, scale, area.length),
            speed: area.speed,
            acknowledgement_from: at.back(area.acknowledgement.in_scale(scale)),
        });
    }
    areas
}

// Where an area ends that starts at a place.
fn end_from(start: Cm, scale: Scale, length: OpenLength) -> Option<Cm>
    requires { HasReach start }
    ensures { result ≡ end_from scale start length }
{
    match length {
        OpenLength::Length(length) => Some(start.ahead(length.in_scale(scale))),
        OpenLength::NoEnd => None,
    }
}
