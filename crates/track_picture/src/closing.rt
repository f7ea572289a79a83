//! What a balise group does that closed: it is judged, it makes its fix, its packets are used.
ghost use Rattle.std.specs.Prelude.{◌≡◌, ◌∷◌, ◌+◌, ◌≤◌, [], length, Option, None, Some};
ghost use Rattle.std.specs.Option.{option_map, option_or};
ghost use Rattle.balise_groups.specs.declared.message.Closed.TheVariants as closed;
ghost use Rattle.balise_groups.specs.declared.message.Message.{Message};
ghost use Rattle.balise_groups.specs.PacketCounts.{packets_of_closed};
ghost use Rattle.linking.specs.declared.announcement.Announcement.{Announcement};
ghost use Rattle.linking.specs.Judging.{judgement, broken_effect};
ghost use Rattle.odometry.specs.declared.fix.Fix.{Fix};
ghost use Rattle.track_picture.specs.Entry.{InputEffect, Used, added, asking_for, blank};
ghost use Rattle.track_picture.specs.Entry.Outcome.{Accepted, Broken as NoMessage};
ghost use Rattle.track_picture.specs.Sentences.{group_read, accepted, outcome_at_first, outcome, after_group, with_closed};
ghost use Rattle.track_picture.specs.Steps.{facts};
ghost use Rattle.track_picture.specs.StandsFor.{Life, SameTrack, grown, grown_so_far, space_in};
ghost use Rattle.track_picture.specs.Columns.{TrackReports, StandsForColumns, known_by, after_judging, after_breaking};

use crate::parts::Parts;
use crate::state::TracksideOver;
use crate::stores::ProfileStores;
use crate::using::{Earlier, Later, Use, take_all};
use balise_groups::{Broken, Closed, GroupPackets, Message};
use linking::{Announcement, GroupRead, Verdict};
use mode_table::Mode;
use vars::LinkOrientation;

impl Parts {
    /// A message as linking judges it: by the place of the train at its reading.
    pub(crate) fn group_read(&self, message: &Message) -> GroupRead
        ensures { result ≡ group_read self.now.place message.now }
    {
        GroupRead {
            group: message.group,
            linked: message.linked,
            direction: message.direction,
            place: self.place.place_at(&message.sums),
        }
    }

    // Linking judges a group, and asks for something. One that is accepted counts for the national values by its
    // country.
    fn judge(&mut self, message: &Message) -> Verdict
        ensures answer { result ≡ (judgement self.old.links (group_read self.old.place message.now)).verdict }
        ensures stands { (life : Life) (initial : InputEffect) (used : Used) (reported : TrackReports) → self.old ≡ known_by (grown_so_far life initial used) reported
            → (let j = judgement self.old.links (group_read self.old.place message.now) in
            self.new ≡ known_by (grown_so_far life initial (added (outcome_at_first message.now j.verdict) (asking_for j.effect used)))
            (after_judging j.verdict message.now reported)) }
    {
        let group = self.group_read(message);
        let judgement = self.links.judge(&group);
        self.happened = self.happened.asking(judgement.effect);
        if let Verdict::Accept(_) = judgement.verdict {
            self.national.enter(message.group.country);
        }
        judgement.verdict
    }

    // A broken group: what linking asks for it.
    fn give_up(&mut self, group: &Broken)
        ensures { (life : Life) (initial : InputEffect) (used : Used) (reported : TrackReports) → self.old ≡ known_by (grown_so_far life initial used) reported
            → self.new ≡ known_by (grown_so_far life initial (added (NoMessage group.now)
            (asking_for (broken_effect self.old.links group.now.group group.now.linked) used))) (after_breaking self.old.links group.now reported) }
    {
        let requested = self.links.broken(group.group, group.linked);
        self.happened = self.happened.asking(requested);
    }
}

impl<T: ProfileStores> TracksideOver<T> {
    // The packets of an accepted group are used: in rising number, equal numbers in the order of the message. A message
    // without a packet for the second walk is read once. There is space for them, so that no memory is taken; so it is
    // up to `close`.
    fn take_packets(&mut self, packets: &GroupPackets, used: &Use)
        requires { length packets.now ≤ space_in T.stores self.old }
        ensures stands { (life : Life) (initial : InputEffect) (groups : Used) (message : Message) (announced : Option Announcement) (fix : Option Fix)
            → StandsForColumns T.stores self.old (grown_so_far life initial (added (Accepted message announced fix []) groups))
            → StandsForColumns T.stores self.new (grown_so_far life initial (added (Accepted message announced fix (facts used.now packets.now)) groups)) }
        ensures space { space_in T.stores self.old ≤ space_in T.stores self.new + length packets.now }
        ensures idle { length packets.now ≡ 0 → SameTrack self.old self.new }
    {
        if take_all::<TracksideOver<T>, Earlier>(self, packets, used) {
            take_all::<TracksideOver<T>, Later>(self, packets, used);
        }
    }

    // An accepted group is used.
    fn accept(&mut self, mode: Mode, message: &Message, announced: &Option<Announcement>)
        requires { length message.now.packets ≤ space_in T.stores self.old }
        ensures stands { (life : Life) (initial : InputEffect) (used : Used)
            → (let judged_only = record blank { initial = initial; used = added (Accepted message.now announced.now None []) used } in
            StandsForColumns T.stores self.old (grown life judged_only)
            → StandsForColumns T.stores self.new (grown_so_far life initial (added (accepted mode (judged_only ∷ life.entries) message.now announced.now) used))) }
        ensures space { space_in T.stores self.old ≤ space_in T.stores self.new + length message.now.packets }
        ensures idle { length message.now.packets ≡ 0 → SameTrack self.old self.new }
    {
        let free = self.is_free();
        let place = self.parts.fix(message, announced, free);
        let used = Use {
            mode,
            group: message.group,
            place,
            moment: self.parts.moment,
            direction: direction_by(&message.direction, announced),
        };
        self.take_packets(&message.packets, &used);
    }

    // A whole group that was judged: one that is accepted is used.
    fn follow(&mut self, mode: Mode, message: &Message, verdict: Verdict)
        requires { length message.now.packets ≤ space_in T.stores self.old }
        ensures stands { (life : Life) (initial : InputEffect) (used : Used)
            → (let judged_only = record blank { initial = initial; used = added (outcome_at_first message.now verdict) used } in
            StandsForColumns T.stores self.old (grown life judged_only)
            → StandsForColumns T.stores self.new (grown_so_far life initial (added (outcome mode (judged_only ∷ life.entries) message.now verdict) used))) }
        ensures space { space_in T.stores self.old ≤ space_in T.stores self.new + length message.now.packets }
        ensures idle { length message.now.packets ≡ 0 → SameTrack self.old self.new }
    {
        match verdict {
            Verdict::Accept(announced) => self.accept(mode, message, &announced),
            Verdict::Ignore | Verdict::Reaction(_) => {}
        }
    }

    // A whole group.
    fn close_whole(&mut self, mode: Mode, message: &Message)
        requires { length message.now.packets ≤ space_in T.stores self.old }
        ensures stands { (life : Life) (initial : InputEffect) (used : Used) → StandsForColumns T.stores self.old (grown_so_far life initial used)
            → StandsForColumns T.stores self.new (grown_so_far life initial (after_group mode life.entries initial used (closed.Whole message.now))) }
        ensures space { space_in T.stores self.old ≤ space_in T.stores self.new + length message.now.packets }
        ensures idle { length message.now.packets ≡ 0 → SameTrack self.old self.new }
    {
        let verdict = self.parts.judge(message);
        self.follow(mode, message, verdict);
    }

    // A group that closed. It stands out of line, since few events close one.
    #[inline(never)]
    fn close_one(&mut self, mode: Mode, group: &Closed)
        requires { packets_of_closed (Some group.now) ≤ space_in T.stores self.old }
        ensures stands { (life : Life) (initial : InputEffect) (used : Used) → StandsForColumns T.stores self.old (grown_so_far life initial used)
            → StandsForColumns T.stores self.new (grown_so_far life initial (after_group mode life.entries initial used group.now)) }
        ensures space { space_in T.stores self.old ≤ space_in T.stores self.new + packets_of_closed (Some group.now) }
        ensures idle { packets_of_closed (Some group.now) ≡ 0 → SameTrack self.old self.new }
    {
        match group {
            Closed::Whole(message) => self.close_whole(mode, message),
            Closed::Broken(broken) => self.parts.give_up(broken),
        }
    }

    /// A group that closed, if one did.
    pub(crate) fn close(&mut self, mode: Mode, group: &Option<Closed>)
        requires { packets_of_closed group.now ≤ space_in T.stores self.old }
        ensures stands { (life : Life) (initial : InputEffect) (used : Used) → StandsForColumns T.stores self.old (grown_so_far life initial used)
            → StandsForColumns T.stores self.new (grown_so_far life initial (with_closed mode life.entries initial group.now used)) }
        ensures space { space_in T.stores self.old ≤ space_in T.stores self.new + packets_of_closed group.now }
        ensures idle { packets_of_closed group.now ≡ 0 → SameTrack self.old self.new }
    {
        match group {
            None => {}
            Some(group) => self.close_one(mode, group),
        }
    }
}

/// The direction in which a group was passed: that of its balises, else the announced one (SUBSET-026, 3.4).
pub fn direction_by(
    reported: &Option<LinkOrientation>,
    announced: &Option<Announcement>,
) -> Option<LinkOrientation>
    ensures { result ≡ option_or reported.now (option_map (λ a. a.direction) announced.now) }
{
    match (reported, announced) {
        (Some(direction), _) => Some(*direction),
        (None, Some(announcement)) => Some(announcement.direction),
        (None, None) => None,
    }
}
