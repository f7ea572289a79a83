//! The fix of a group that was accepted.
ghost use Rattle.std.specs.Prelude.{◌≡◌, not, ◌&&◌, ◌∷◌, [], None};
ghost use Rattle.track_picture.specs.Entry.{InputEffect, Used, added, blank};
ghost use Rattle.track_picture.specs.Entry.Outcome.{Accepted};
ghost use Rattle.track_picture.specs.History.{place_of};
ghost use Rattle.track_picture.specs.Sentences.{own_place, place_by, is_free, fix_of};
ghost use Rattle.track_picture.specs.Steps.{fix_wanted};
ghost use Rattle.track_picture.specs.StandsFor.{Life, StandsForLife, grown_so_far};
ghost use Rattle.track_picture.specs.Columns.{TrackReports, known_by};

use crate::parts::Parts;
use crate::state::TracksideOver;
use crate::stores::ProfileStores;
use balise_groups::Message;
use linking::Announcement;
use odometry::Fix;
use track_store::is_known;
use units::{Cm, GroupPlace, Length};
use vars::Variable;

// Where a group is to be fixed, and how exactly that is known.
#[derive(Clone, Copy)]
struct Wanted {
    place: Cm,
    accuracy: Length,
}

impl Parts {
    /// An accepted group makes its fix, which may depend on whether the track is free: the place from which its
    /// distances count.
    pub fn fix(
        &mut self,
        message: &Message,
        announced: &Option<Announcement>,
        free: bool,
    ) -> GroupPlace
        ensures answer { (life : Life) (initial : InputEffect) (used : Used) (reported : TrackReports)
            → self.old ≡ known_by (grown_so_far life initial (added (Accepted message.now announced.now None []) used)) reported
            → (let here = place_of (record blank { initial = initial; used = added (Accepted message.now announced.now None []) used } ∷ life.entries) in
            result ≡ place_by (own_place here message.now) (fix_of here free message.now announced.now)) }
        ensures stands { (life : Life) (initial : InputEffect) (used : Used) (reported : TrackReports)
            → self.old ≡ known_by (grown_so_far life initial (added (Accepted message.now announced.now None []) used)) reported
            → (let here = place_of (record blank { initial = initial; used = added (Accepted message.now announced.now None []) used } ∷ life.entries) in
            self.new ≡ known_by (grown_so_far life initial (added (Accepted message.now announced.now (fix_of here free message.now announced.now) []) used)) reported) }
    {
        let own = self.place.place_at(&message.sums).estimate;
        let Some(wanted) = fix_wanted(free, own, announced) else {
            return own;
        };
        let fix = Fix {
            at: wanted.place,
            accuracy: wanted.accuracy,
            sums: message.sums,
            missed: message.missed,
        };
        match self.place.fix(fix) {
            Ok(place) => {
                self.group = Some(message.group);
                place
            }
            Err(_) => own,
        }
    }
}

impl<T: ProfileStores> TracksideOver<T> {
    /// Whether a group that wasn't announced makes a fix: nothing is known that lies at places of its own.
    pub fn is_free(&self) -> bool
        ensures { (life : Life) → StandsForLife T.stores self.now life → result ≡ is_free life.entries }
    {
        let announced = self.parts.links.is_in_use();
        let authorised = self.parts.authority.is_stored();
        let gradient = is_known(&self.gradients);
        let speed = is_known(&self.speeds);
        is_none(announced, authorised, gradient, speed)
    }
}

// Whether none of these is so.
fn is_none(announced: bool, authorised: bool, gradient: bool, speed: bool) -> bool
    ensures { result ≡ (not announced && not authorised && not gradient && not speed) }
{
    !announced && !authorised && !gradient && !speed
}

// Where an accepted group is to be fixed: where it was announced, else at its own place, but only while the track is
// free.
fn fix_wanted(free: bool, own: GroupPlace, announced: &Option<Announcement>) -> Option<Wanted>
    ensures { result ≡ fix_wanted free own announced.now }
{
    match announced {
        Some(announcement) => {
            let accuracy = 100 * announcement.accuracy.number();
            Some(Wanted {
                place: announcement.place,
                accuracy: Length::new_unchecked(accuracy),
            })
        }
        None if free => Some(Wanted {
            place: own.to_cm(),
            accuracy: Length::ZERO,
        }),
        None => None,
    }
}
