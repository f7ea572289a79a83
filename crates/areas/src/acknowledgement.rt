//! The states of an acknowledgement: nothing, asked for, given, or owed since a transition (this project's profile).
ghost use Rattle.std.specs.Prelude.{◌≡◌, []};
ghost use Rattle.areas.specs.Acknowledging.{Happening, after, after_all, waits, brakes};

use units::Ms;

/// What the driver has to acknowledge of one kind: On Sight, Shunting or level 0 (SUBSET-026, 5.7, 5.9 and 5.10; when:
/// this project's profile).
#[derive(Clone, Copy)]
pub enum Acknowledgement {
    /// Nothing is asked for.
    Nothing,
    /// It is asked for, before the transition.
    Requested,
    /// It was given before the transition.
    Done,
    /// It is owed since a transition at this moment, in milliseconds.
    Owed(Ms),
}

/// How long it may be owed before it orders the service brake, in milliseconds.
const BRAKE_DELAY: u64 = 5_000;

impl Acknowledgement {
    /// Nothing is asked for.
    pub fn new() -> Self
        ensures { result ≡ after_all [] }
    {
        Acknowledgement::Nothing
    }

    /// The driver acknowledges: what is asked for is done, and what is owed is settled. Else it has no effect.
    pub fn acknowledge(&mut self)
        ensures { self.new ≡ after Happening.Acknowledged self.old }
    {
        *self = match *self {
            Acknowledgement::Requested => Acknowledgement::Done,
            Acknowledgement::Owed(_) => Acknowledgement::Nothing,
            other => other,
        };
    }

    /// The transition, at a moment in milliseconds: its mode is entered because of an area, or the announced level 0
    /// comes into force. It is owed from then on, unless it was done before.
    pub fn turn(&mut self, moment: Ms)
        ensures { self.new ≡ after (Happening.Entered moment) self.old }
    {
        *self = match *self {
            Acknowledgement::Done => Acknowledgement::Nothing,
            _ => Acknowledgement::Owed(moment),
        };
    }

    /// An area or an announcement of the kind asks for it: from Nothing it becomes Requested.
    pub fn ask(&mut self)
        ensures { self.new ≡ after Happening.Requested self.old }
    {
        if matches!(self, Acknowledgement::Nothing) {
            *self = Acknowledgement::Requested;
        }
    }

    /// No area or announcement of the kind is left: what was asked for or done is over, and what is owed stays owed.
    pub fn settle(&mut self)
        ensures { self.new ≡ after Happening.Settled self.old }
    {
        if !matches!(self, Acknowledgement::Owed(_)) {
            *self = Acknowledgement::Nothing;
        }
    }

    /// A mode is entered that deletes it (4.10): nothing is asked for.
    pub fn clear(&mut self)
        ensures { self.new ≡ after Happening.Deleted self.old }
    {
        *self = Acknowledgement::Nothing;
    }

    /// Whether it is asked for or owed, so that the driver is shown it.
    pub fn waits(&self) -> bool
        ensures { result ≡ waits self.now }
    {
        matches!(self, Acknowledgement::Requested | Acknowledgement::Owed(_))
    }

    /// Whether it has been owed for 5,000 ms at this moment, and so asks for the service brake (this project's
    /// profile).
    pub fn brakes(&self, now: Ms) -> bool
        ensures { result ≡ brakes now self.now }
    {
        match self {
            Acknowledgement::Owed(since) => since.get() + BRAKE_DELAY <= now.get(),
            _ => false,
        }
    }
}
