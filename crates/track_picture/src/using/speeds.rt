//! Static speeds (packet 27).
ghost use Rattle.std.specs.Prelude.{◌≡◌, ◌≤◌, ◌+◌};
ghost use Rattle.speed_profile.specs.declared.reported.CategorySpeeds.{CategorySpeeds};
ghost use Rattle.track_store.specs.Facts.{MarkedFacts, profile_of};
ghost use Rattle.track_store.specs.Profiles.{profile_with};
ghost use Rattle.track_picture.specs.Columns.{after_speeds};
ghost use Rattle.track_picture.specs.Steps.{fact_of};

use crate::using::Use;
use packets::Packet;
use speed_profile::{CategorySpeeds, static_speeds};
use track_store::ProfileStore;
use units::Cm;

/// Takes a packet, where it has static speeds; no track before the forgetting mark counts. There is space for one
/// replacement.
pub fn take<S: ProfileStore<CategorySpeeds>>(
    store: &mut S,
    mark: Cm,
    packet: &Packet<'_>,
    used: &Use,
)
    requires { 1 ≤ S.space store.old }
    ensures profile { (reported : MarkedFacts CategorySpeeds) → reported.mark ≡ mark → profile_with S.value store.old ≡ profile_of reported
        → profile_with S.value store.new ≡ profile_of (record reported { facts = after_speeds (fact_of used.now packet.now) reported.facts }) }
    ensures space { S.space store.old ≤ S.space store.new + 1 }
{
    let Packet::StaticSpeeds(packet) = packet else {
        return;
    };
    let reported = static_speeds(packet, used.place);
    store.replace_reserved(reported.start, reported.steps.as_slice());
    store.drop_behind(mark);
}
