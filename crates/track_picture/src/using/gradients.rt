//! Gradients (packet 21).
ghost use Rattle.std.specs.Prelude.{◌≡◌, ℤ, ◌≤◌, ◌+◌};
ghost use Rattle.track_store.specs.Facts.{MarkedFacts, profile_of};
ghost use Rattle.track_store.specs.Profiles.{profile_with};
ghost use Rattle.track_picture.specs.Columns.{after_gradients};
ghost use Rattle.track_picture.specs.Steps.{fact_of};

use crate::using::Use;
use packets::Packet;
use speed_profile::gradients;
use track_store::ProfileStore;
use units::{Cm, Permille};

/// Takes a packet, where it has gradients; no track before the forgetting mark counts. There is space for one
/// replacement.
pub fn take<G: ProfileStore<Permille>>(store: &mut G, mark: Cm, packet: &Packet<'_>, used: &Use)
    requires { 1 ≤ G.space store.old }
    ensures profile { (reported : MarkedFacts ℤ) → reported.mark ≡ mark → profile_with G.value store.old ≡ profile_of reported
        → profile_with G.value store.new ≡ profile_of (record reported { facts = after_gradients (fact_of used.now packet.now) reported.facts }) }
    ensures space { G.space store.old ≤ G.space store.new + 1 }
{
    let Packet::Gradients(packet) = packet else {
        return;
    };
    let reported = gradients(packet, used.place);
    store.replace_reserved(reported.start, reported.steps.as_slice());
    store.drop_behind(mark);
}
