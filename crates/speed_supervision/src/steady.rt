//! A limit that stays the same while the train moves on within a window, so that most readings need not seek it again.
ghost use Rattle.std.specs.Prelude.{◌≡◌, pos, ◌-ℤ◌, ◌≤ℤ◌, false, IsTrue, IfSome};
ghost use Rattle.std.specs.Option.{option_map_or};
ghost use Rattle.driver.specs.declared.datum.Datum.TheVariants.{Valid};
ghost use Rattle.mode_table.specs.declared.mode.Mode.{Mode as AMode};
ghost use Rattle.mode_control.specs.Conditions.{is_beyond};
ghost use Rattle.mode_control.specs.History.{mode_of};
ghost use Rattle.mode_control.specs.Life.{Life, driver_of};
ghost use Rattle.mode_control.specs.Sentences.{values_of, span_of};
ghost use Rattle.mode_control.specs.StandsFor.{StandsForLife};
ghost use Rattle.speed_supervision.specs.Limit.{bounds_of, in_areas, permitted_speed, limit};
ghost use Rattle.speed_supervision.specs.Steady.{IsWithin, IsAbout, IsFor, IsSteady};
ghost use Rattle.track_picture.specs.Sentences.{forgetting_mark};

use crate::alike::{are_same_bounds, are_same_brakes, are_same_speeds};
use crate::by_mode::values;
use crate::holding::limit_between;
use crate::permitted::{along, bounds, in_areas};
use crate::window::window;
use areas::NationalSpeeds;
use braking::Brakes;
use driver::{Datum, TrainData};
use mode_control::SupervisionOver;
use mode_table::Mode;
use speed_profile::{Ahead, Bounds};
use track_picture::ProfileStores;
use track_store::Profile;
use units::{Cm, Mph, Stretch};

// The most restrictions, static speeds and gradients, each, that a search goes along: one of each every 200 m of 32 km.
const MOST_PIECES: usize = 160;

/// A limit in Full Supervision or On Sight that holds wherever the train is within a window, while its bounds, its brakes
/// and the national speeds are these and the track isn't reported anew (this project's profile).
#[derive(Clone, Copy)]
pub struct SteadyLimit {
    /// The limit, in metres per hour.
    pub limit: Mph,
    /// The window: the train covers no more than this,
    pub widest: Stretch,
    /// and no less than this.
    pub narrowest: Stretch,
    /// What limits the train wherever it is.
    pub bounds: Bounds,
    /// What is known of its brakes.
    pub brakes: Brakes,
    /// The national speeds of mode areas.
    pub national: NationalSpeeds,
}

impl SteadyLimit {
    /// Looks for a limit that stays the same from where the train is on. None where it would change soon, in other modes,
    /// or where the train data aren't valid.
    pub fn find<T: ProfileStores>(supervision: &SupervisionOver<T>) -> Option<SteadyLimit>
        ensures steady { (life : Life) → StandsForLife T.stores supervision.now life → IfSome result (λ steady. IsSteady steady life) }
        ensures limit { (life : Life) → StandsForLife T.stores supervision.now life → IfSome result (λ steady. steady.limit ≡ limit life) }
    {
        let train = searched_train(supervision)?;
        find_for(supervision, &train)
    }

    /// The limit, where the train is within the window and all else that it holds for is the same. The caller owes a track
    /// for which it is steady. None where it has to be sought anew.
    pub fn limit_of<T: ProfileStores>(&self, supervision: &SupervisionOver<T>) -> Option<Mph>
        ensures limit { (life : Life) → StandsForLife T.stores supervision.now life → IsSteady self.now life
            → IfSome result (λ speed. speed ≡ limit life) }
        ensures near { (life : Life) → StandsForLife T.stores supervision.now life
            → IfSome result (λ speed. forgetting_mark (span_of life) ≤ℤ self.now.widest.rear) }
    {
        if !self.has_within(&supervision.stretch()) {
            return None;
        }
        let train = supervised_train(supervision)?;
        if self.is_for(supervision, &train) {
            Some(self.limit)
        } else {
            None
        }
    }

    /// Whether a train is within the window and before the end of authority, and what is forgotten of the track lies no
    /// farther on than the window.
    pub fn is_about(&self, train: &Stretch) -> bool
        ensures { IsTrue result → IsAbout self.now train.now }
    {
        // (this call promises that the window is ordered)
        let _rear = self.narrowest.rear();
        self.has_within(train) && self.is_before_end(train)
    }

    /// Whether the mode is Full Supervision, the data of the train are valid, and it holds for them and for what is known
    /// of the track.
    pub fn is_for_full<T: ProfileStores>(&self, supervision: &SupervisionOver<T>) -> bool
        ensures mode { (life : Life) → StandsForLife T.stores supervision.now life → IsTrue result → mode_of life.entries ≡ AMode.FullSupervision }
        ensures data { (life : Life) → StandsForLife T.stores supervision.now life → IsTrue result → IsFor self.now life }
    {
        let Mode::FullSupervision = supervision.mode() else {
            return false;
        };
        match valid_train(&supervision.driver().train_data()) {
            Some(train) => self.is_for(supervision, &train),
            None => false,
        }
    }

    // Whether a train isn't beyond the end of authority where no speed is allowed there.
    fn is_before_end(&self, train: &Stretch) -> bool
        ensures { IsTrue result → option_map_or (is_beyond train.now.min_front) self.now.bounds.end false ≡ false }
    {
        match &self.bounds.end {
            None => true,
            Some(end) => end.place >= train.min_front() || end.speed.get() != 0,
        }
    }

    // Whether a train is within the window, and what is forgotten of the track lies no farther on than the window.
    fn has_within(&self, train: &Stretch) -> bool
        ensures within { IsTrue result → IsWithin self.now train.now }
        ensures near { IsTrue result → forgetting_mark train.now ≤ℤ self.now.widest.rear }
    {
        is_between(
            train.max_front(),
            self.narrowest.max_front(),
            self.widest.max_front(),
        ) && is_between(train.rear(), self.widest.rear(), self.narrowest.rear())
            && is_between(
                train.min_front(),
                self.widest.min_front(),
                self.narrowest.min_front(),
            )
            && is_near(train.rear(), self.widest.rear())
    }

    // Whether it holds for the bounds and brakes of a train, and for the national speeds.
    fn is_for<T: ProfileStores>(&self, supervision: &SupervisionOver<T>, train: &TrainData) -> bool
        ensures bounds { (life : Life) → StandsForLife T.stores supervision.now life → IsTrue result → self.now.bounds ≡ bounds_of life train.now }
        ensures brakes { IsTrue result → self.now.brakes ≡ train.now.brakes }
        ensures national { (life : Life) → StandsForLife T.stores supervision.now life → IsTrue result → self.now.national ≡ in_areas (values_of life) }
    {
        are_same_brakes(&self.brakes, &train.brakes())
            && are_same_speeds(&self.national, &in_areas(values(supervision)))
            && are_same_bounds(&self.bounds, &bounds(supervision, train))
    }
}

fn is_between(place: Cm, first: Cm, last: Cm) -> bool
    ensures first { IsTrue result → first ≤ℤ place }
    ensures last { IsTrue result → place ≤ℤ last }
{
    first <= place && place <= last
}

// Whether a place lies no farther than 1 km on from a first one.
fn is_near(place: Cm, first: Cm) -> bool
    ensures { IsTrue result → (place -ℤ pos 100_000) ≤ℤ first }
{
    place.get() - 100_000 <= first.get()
}

// The train whose permitted speed is the limit: in Full Supervision and On Sight, where its data are valid.
fn supervised_train<T: ProfileStores>(supervision: &SupervisionOver<T>) -> Option<TrainData>
    ensures { (life : Life) → StandsForLife T.stores supervision.now life → IfSome result (λ train. permitted_speed life train ≡ limit life) }
{
    match supervision.mode() {
        Mode::FullSupervision | Mode::OnSight => valid_train(&supervision.driver().train_data()),
        _ => None,
    }
}

// The same where the track is short enough for a search, so that one that finds nothing adds little to the worst case.
fn searched_train<T: ProfileStores>(supervision: &SupervisionOver<T>) -> Option<TrainData>
    ensures { (life : Life) → StandsForLife T.stores supervision.now life → IfSome result (λ train. permitted_speed life train ≡ limit life) }
{
    let train = supervised_train(supervision)?;
    let track = supervision.track();
    let from = supervision.stretch().rear();
    let is_short = track.restrictions().as_slice().len() <= MOST_PIECES
        && has_few_pieces(track.speeds(), from)
        && has_few_pieces(track.gradients(), from);
    if is_short { Some(train) } else { None }
}

// Whether a profile has no more pieces than a search goes along, from a place on.
fn has_few_pieces<T: Drop, P: Profile<T>>(profile: &P, from: Cm) -> bool {
    let mut place = from;
    let mut near = 0;
    for _ in 0..MOST_PIECES {
        let here = profile.piece(place, near);
        let Some(next) = here.next else {
            return true;
        };
        place = next;
        near = here.near;
    }
    false
}

// The data of a train that are valid.
fn valid_train(train: &Datum<TrainData>) -> Option<TrainData>
    ensures { IfSome result (λ valid. train.now ≡ Valid valid) }
{
    match train {
        Datum::Valid(train) => Some(*train),
        Datum::Unknown | Datum::Invalid(_) => None,
    }
}

// The same for a train.
fn find_for<T: ProfileStores>(
    supervision: &SupervisionOver<T>,
    train: &TrainData,
) -> Option<SteadyLimit>
    ensures steady { (life : Life) → StandsForLife T.stores supervision.now life → IfSome result (λ steady. IsSteady steady life) }
    ensures limit { (life : Life) → StandsForLife T.stores supervision.now life
        → IfSome result (λ steady. steady.limit ≡ permitted_speed life train.now) }
{
    let here = supervision.stretch();
    let stretches = window(&here, supervision.track().speed())?;
    let (widest, narrowest) = stretches;
    let bounds = bounds(supervision, train);
    let track = along(supervision);
    let brakes = train.brakes();
    let ahead = Ahead {
        front: widest.max_front(),
        bounds: &bounds,
        track: &track,
        gradient: supervision.track().gradients(),
        brakes: &brakes,
    };
    let limit = limit_between(&widest, &narrowest, &ahead)?;
    Some(SteadyLimit {
        limit,
        widest,
        narrowest,
        bounds,
        brakes,
        national: track.national,
    })
}
