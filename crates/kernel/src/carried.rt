//! What is carried from event to event, so that most readings and moments cost little: a steady limit, and where the train
//! is while nothing comes.
ghost use Rattle.std.specs.Prelude.{◌≡◌, true, IsSome, IfSome};
ghost use Rattle.mode_control.specs.Entry.{initial};
ghost use Rattle.mode_control.specs.Life.{Life, grown};
ghost use Rattle.mode_control.specs.Sentences.{reported, deed_of, span_of};
ghost use Rattle.mode_control.specs.StandsFor.{StandsForLife};
ghost use Rattle.speed_supervision.specs.Limit.{limit};
ghost use Rattle.kernel.specs.Carrying.{IsCarried, IsCarriedAhead, IsPassed, HoldsAt, IsStillAt};

use events::Input;
use mode_control::SupervisionOver;
use mode_table::Mode;
use speed_supervision::{SteadyLimit, limit};
use track_picture::ProfileStores;
use units::{Mph, Stretch};

// How many calm events pass after a search that found nothing.
const PAUSE: u8 = 16;

// Whether a few looks can show that a mode stays, where no steady limit is carried.
fn is_settled(mode: Mode) -> bool {
    matches!(
        mode,
        Mode::StandBy
            | Mode::StaffResponsible
            | Mode::Shunting
            | Mode::Trip
            | Mode::PostTrip
            | Mode::SystemFailure
    )
}

/// What is carried (this project's profile).
#[derive(Clone, Copy)]
pub struct Carried {
    /// A limit that is steady where the train is; None where none is known.
    pub steady: Option<SteadyLimit>,
    /// How many calm events pass until one is looked for.
    pub pause: u8,
    /// Where the train is while nothing comes, so that a reading or a moment can be passed with a few looks; None where
    /// something may come.
    pub still: Option<Stretch>,
}

impl Carried {
    /// Nothing, as a life begins, and after an event that isn't calm.
    pub const NONE: Carried = Carried {
        steady: None,
        pause: 1,
        still: None,
    };

    // A train, where the steady limit holds, if one is carried.
    fn train_where(&self, train: Stretch) -> Option<Stretch>
        ensures { IfSome result (λ there. (there ≡ train) × HoldsAt self.now.steady there) }
    {
        match &self.steady {
            Some(steady) if !steady.is_about(&train) => None,
            _ => Some(train),
        }
    }

    /// Takes note of where the train is once an input has begun. Something may come where the input may close a group, or
    /// where the steady limit doesn't hold any more.
    pub fn move_on<T: ProfileStores>(
        &mut self,
        closes_none: bool,
        input: &Input,
        supervision: &SupervisionOver<T>,
    )
        ensures rest { self.new ≡ record self.old { still = self.new.still } }
        ensures still { IfSome self.new.still (λ _. (closes_none ≡ true) × IsSome self.old.still) }
        ensures train { (life : Life) → StandsForLife T.stores supervision.now (grown life (initial (reported life input.now) (deed_of life input.now)))
            → IfSome self.old.still (λ here. (here ≡ span_of life) × HoldsAt self.old.steady here)
            → IfSome self.new.still (λ train. (train ≡ span_of (grown life (initial (reported life input.now) (deed_of life input.now))))
            × HoldsAt self.old.steady train) }
    {
        if self.still.is_none() {
            return;
        }
        match input {
            Input::Clock(_) if closes_none => {}
            Input::Odometer(_) if closes_none => {
                self.still = self.train_where(supervision.stretch());
            }
            _ => self.still = None,
        }
    }

    // Where the train is, if nothing comes, so that the next event may be passed.
    fn train_still<T: ProfileStores>(&self, supervision: &SupervisionOver<T>) -> Option<Stretch>
        ensures { (life : Life) → StandsForLife T.stores supervision.now life
            → IfSome result (λ train. IsStillAt supervision.now self.now.steady train life) }
    {
        let holds = match &self.steady {
            None => is_settled(supervision.mode()),
            Some(steady) => steady.is_for_full(supervision),
        };
        if !holds || !supervision.is_still() {
            return None;
        }
        self.train_where(supervision.stretch())
    }

    // The limit where nothing comes: the steady one, if one is carried.
    fn limit_here<T: ProfileStores>(&self, supervision: &SupervisionOver<T>) -> Mph
        ensures { (life : Life) → StandsForLife T.stores supervision.now life → IsPassed supervision.now self.now life → result ≡ limit life }
    {
        match &self.steady {
            None => limit(supervision),
            Some(steady) => steady.limit,
        }
    }

    // The limit, where what is carried gives it.
    fn known_limit<T: ProfileStores>(&self, supervision: &SupervisionOver<T>) -> Option<Mph>
        ensures { (life : Life) → StandsForLife T.stores supervision.now life → IsCarriedAhead self.now life
            → IfSome result (λ speed. (speed ≡ limit life) × IsCarried self.now life) }
    {
        match &self.steady {
            None => None,
            Some(steady) => {
                // (this call promises that the window is ordered)
                let _rear = steady.narrowest.rear();
                steady.limit_of(supervision)
            }
        }
    }

    // The limit, and a steady one is looked for where no pause is left.
    fn seek<T: ProfileStores>(&mut self, supervision: &SupervisionOver<T>) -> Mph
        ensures limit { (life : Life) → StandsForLife T.stores supervision.now life → result ≡ limit life }
        ensures carried { (life : Life) → StandsForLife T.stores supervision.now life → IsCarried self.new life }
    {
        self.steady = None;
        if self.pause > 0 {
            self.pause -= 1;
            return limit(supervision);
        }
        match SteadyLimit::find(supervision) {
            None => {
                self.pause = PAUSE;
                limit(supervision)
            }
            Some(steady) => {
                let speed = steady.limit;
                self.steady = Some(steady);
                speed
            }
        }
    }

    /// The limit after an event. The caller says whether it was passed, since nothing came. After a calm event, which
    /// leaves the track as it was from the forgetting mark on, the limit is the steady one where that still holds.
    pub fn limit_after<T: ProfileStores>(
        &mut self,
        passed: bool,
        calm: bool,
        supervision: &SupervisionOver<T>,
    ) -> Mph
        ensures limit { (life : Life) → StandsForLife T.stores supervision.now life
            → (calm ≡ true → IsCarriedAhead self.old life)
            → (passed ≡ true → IsPassed supervision.now self.old life) → result ≡ limit life }
        ensures carried { (life : Life) → StandsForLife T.stores supervision.now life
            → (calm ≡ true → IsCarriedAhead self.old life)
            → (passed ≡ true → IsPassed supervision.now self.old life) → IsCarried self.new life }
        ensures still { (life : Life) → StandsForLife T.stores supervision.now life
            → (passed ≡ true → IsPassed supervision.now self.old life)
            → IfSome self.new.still (λ train. IsStillAt supervision.now self.new.steady train life) }
    {
        if passed {
            return self.limit_here(supervision);
        }
        if !calm {
            *self = Carried::NONE;
            return limit(supervision);
        }
        let limit = match self.known_limit(supervision) {
            Some(speed) => speed,
            None => self.seek(supervision),
        };
        self.still = self.train_still(supervision);
        limit
    }
}
