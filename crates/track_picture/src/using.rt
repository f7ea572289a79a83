//! How the packets of a group that was accepted are used. They are taken in rising number, equal numbers in the order
//! of the message, and most kinds go to a part of their own: so two walks over the message are enough, and the second
//! one is made only where the first met a packet for it.
ghost use Rattle.std.specs.Prelude.{◌≡◌, ◌+◌, ◌≤◌, ◌||◌, ℕ, length, if◌then◌else◌};
ghost use Rattle.std.specs.List.{list_any};
ghost use Rattle.track_picture.specs.Entry.{Fact};
ghost use Rattle.track_picture.specs.Columns.{after_facts};
ghost use Rattle.track_picture.specs.Sentences.{is_valid, valid_in, is_used};
ghost use Rattle.track_picture.specs.StandsFor.{space_in};
ghost use Rattle.track_picture.specs.Steps.{fact_of, facts};
ghost use Rattle.track_picture.specs.Reported.{Walked, IsReported as IsAllReported, known_of, after_earlier, after_later};
ghost use Rattle.track_picture.specs.Happenings.{comes_later};

mod gradients;
mod grants;
mod levels;
mod links;
mod mode_areas;
mod restrictions;
mod revocations;
mod speeds;
mod values;

use crate::parts::Parts;
use crate::state::TracksideOver;
use crate::stores::ProfileStores;
use balise_groups::GroupPackets;
use mode_table::{Mode, uses};
use packets::Packet;
use telegram::PacketInPlace;
use units::{GroupPlace, Ms};
use vars::{GroupIdentity, LinkOrientation, ValidityDirection, Variable};

/// How the packets of a group are used.
#[derive(Clone, Copy)]
pub struct Use {
    /// The mode before the event.
    pub mode: Mode,
    /// Which group it is.
    pub group: GroupIdentity,
    /// From where its distances count, in centimetres.
    pub place: GroupPlace,
    /// When it closed, in milliseconds of the life.
    pub moment: Ms,
    /// The direction in which it was passed, where that is known.
    pub direction: Option<LinkOrientation>,
}

/// Whether a packet that is valid in this direction counts (Q_DIR), of a group that is passed in that one; None where
/// that isn't known.
pub fn is_valid(valid: ValidityDirection, direction: Option<LinkOrientation>) -> bool
    ensures { result ≡ is_valid valid direction }
{
    match (valid, direction) {
        (ValidityDirection::Both, _) => true,
        (ValidityDirection::Nominal, Some(LinkOrientation::Nominal)) => true,
        (ValidityDirection::Reverse, Some(LinkOrientation::Reverse)) => true,
        _ => false,
    }
}

/// The direction in which a packet is valid; None of one that isn't known.
pub fn valid_in(packet: &Packet<'_>) -> Option<ValidityDirection>
    ensures { result ≡ valid_in packet.now }
{
    match packet {
        Packet::NationalValues(packet) => Some(packet.direction),
        Packet::Linking(packet) => Some(packet.direction),
        Packet::MovementAuthority(packet) => Some(packet.direction),
        Packet::Gradients(packet) => Some(packet.direction),
        Packet::StaticSpeeds(packet) => Some(packet.direction),
        Packet::LevelTransition(packet) => Some(packet.direction),
        Packet::SpeedRestriction(packet) => Some(packet.direction),
        Packet::RestrictionRevocation(packet) => Some(packet.direction),
        Packet::ModeProfile(packet) => Some(packet.direction),
        Packet::Other(_) => None,
    }
}

// Whether a packet is used.
fn is_used(packet: &Packet<'_>, used: &Use) -> bool
    ensures { result ≡ is_used used.now.mode used.now.direction packet.now }
{
    let Some(valid) = valid_in(packet) else {
        return false;
    };
    uses(used.mode, packet.number().number() as u8) && is_valid(valid, used.direction)
}

// Whether a packet is for the second walk.
fn comes_later(packet: &Packet<'_>) -> bool
    ensures { result ≡ comes_later packet.now }
{
    matches!(
        packet,
        Packet::RestrictionRevocation(_) | Packet::ModeProfile(_)
    )
}

// Whether such a packet was met, with one packet more.
fn met_later(before: bool, packet: &Packet<'_>) -> bool
    ensures { result ≡ (before || comes_later packet.now) }
{
    before || comes_later(packet)
}

/// A walk over the packets of a message, and what a state takes of them one after another. It takes no memory, in the
/// space that was made for so many packets of the walk, and for more after them.
pub trait Walk<T> {
    ghost Reported: { Type 0 };

    ghost IsReported: { T → Reported → Type 0 };

    ghost HasSpace: { ℕ → ℕ → T → Type 0 };

    ghost after: { Fact → Reported → Reported };

    /// Takes what concerns this walk of a packet that is used.
    fn take(state: &mut T, packet: &Packet<'_>, used: &Use)
        requires { (left : ℕ) × HasSpace (left + 1) 0 state.old }
        ensures reported { (reported : Reported) → IsReported state.old reported → IsReported state.new (after (fact_of used.now packet.now) reported) }
        ensures space { (left following : ℕ) → HasSpace (left + 1) following state.old → HasSpace left following state.new };

    ghost less: { (left following : ℕ) (state : T) → HasSpace (left + 1) following state → HasSpace left following state };
}

// One packet of a walk.
fn take_one<T, W: Walk<T>>(state: &mut T, packet: &Packet<'_>, used: &Use)
    requires { (left : ℕ) × W.HasSpace (left + 1) 0 state.old }
    ensures reported { (reported : W.Reported) → W.IsReported state.old reported
        → W.IsReported state.new (if is_used used.now.mode used.now.direction packet.now then W.after (fact_of used.now packet.now) reported else reported) }
    ensures space { (left following : ℕ) → W.HasSpace (left + 1) following state.old → W.HasSpace left following state.new }
{
    if is_used(packet, used) {
        W::take(state, packet, used);
    }
}

/// A whole walk. Answers whether it met a packet for the second one. The caller owes space for as many packets of the
/// walk as the message has.
pub fn take_all<T, W: Walk<T>>(state: &mut T, packets: &GroupPackets, used: &Use) -> bool
    requires { W.HasSpace (length packets.now) 0 state.old }
    ensures reported { (reported : W.Reported) → W.IsReported state.old reported → W.IsReported state.new (after_facts W.after (facts used.now packets.now) reported) }
    ensures space { (following : ℕ) → W.HasSpace (length packets.now) following state.old → W.HasSpace 0 following state.new }
    ensures later { result ≡ list_any comes_later packets.now }
    ensures none { length packets.now ≡ 0 → state.new ≡ state.old }
{
    let mut later = false;
    let mut walk = packets.iter();
    let mut item = PacketInPlace::new();
    'packets: while walk.next_into(&mut item) {
        take_one::<T, W>(state, item.packet(), used);
        later = met_later(later, item.packet());
    }
    later
}

impl Parts {
    // Takes what a packet has for one of these parts in the first walk.
    fn describe(&mut self, packet: &Packet<'_>, used: &Use)
        ensures { (reported : Walked) → self.old ≡ known_of reported → self.new ≡ known_of (after_earlier (fact_of used.now packet.now) reported) }
    {
        values::take(&mut self.national, packet, used);
        links::take(&mut self.links, packet, used);
        grants::take(&mut self.authority, packet, used);
        grants::note_stop(&mut self.stopped, packet);
        mode_areas::clear(&mut self.areas, packet);
        levels::take(&mut self.level, packet, used);
    }

    // .. and in the second.
    fn describe_later(&mut self, packet: &Packet<'_>, used: &Use)
        ensures { (reported : Walked) → self.old ≡ known_of reported → self.new ≡ known_of (after_later (fact_of used.now packet.now) reported) }
    {
        mode_areas::take(&mut self.areas, packet, used);
    }
}

/// The walk over all kinds of packets but those that come after another kind of the same part.
pub struct Earlier;

impl<T: ProfileStores> Walk<TracksideOver<T>> for Earlier {
    ghost use Rattle.std.proofs.Common.{arith};

    ghost Reported = { Walked };

    ghost IsReported = { λ state reported. IsAllReported T.stores state reported };

    ghost HasSpace = { λ left following state. left + following ≤ space_in T.stores state };

    ghost after = { after_earlier };

    ghost less = { λ left following state space. omega arith };

    fn take(state: &mut TracksideOver<T>, packet: &Packet<'_>, used: &Use) {
        let mark = state.restrictions.mark();
        state.parts.describe(packet, used);
        restrictions::take(&mut state.restrictions, packet, used);
        gradients::take(&mut state.gradients, mark, packet, used);
        speeds::take(&mut state.speeds, mark, packet, used);
    }
}

/// The walk over the revocations, after the restrictions, and over the mode areas, after the authorities. It needs no
/// space.
pub struct Later;

impl<T: ProfileStores> Walk<TracksideOver<T>> for Later {
    ghost Reported = { Walked };

    ghost IsReported = { λ state reported. IsAllReported T.stores state reported };

    ghost HasSpace = { λ left following state. following ≤ space_in T.stores state };

    ghost after = { after_later };

    ghost less = { λ left following state space. space };

    fn take(state: &mut TracksideOver<T>, packet: &Packet<'_>, used: &Use) {
        state.parts.describe_later(packet, used);
        revocations::take(&mut state.restrictions, packet, used);
    }
}
