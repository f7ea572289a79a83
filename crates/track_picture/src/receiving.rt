//! What an input does: its own effect, and then that of the groups which it closes.
ghost use Rattle.std.specs.Prelude.{◌≡◌, ◌≤◌, ◌+◌, ℕ, length, true, false, List, [], ◌∷◌, IsOk, IfOk, OnOk, OnErr, Some, None, is_none};
ghost use Rattle.events.specs.declared.input.Reading.{Reading as Reported};
ghost use Rattle.balise_groups.specs.PacketCounts.{packets_in, packets_of_closed};
ghost use Rattle.track_picture.specs.Bytes.{telegram_in};
ghost use Rattle.track_picture.specs.Entry.{nothing_happened, no_groups, nothing};
ghost use Rattle.track_picture.specs.History.{groups_of};
ghost use Rattle.track_picture.specs.Sentences.{heard, initial, closed_by, with_groups, used_by, received};
ghost use Rattle.track_picture.specs.StandsFor.{Life, StandsForLife, SameTrack, grown, grown_so_far, space_in, size_in};
ghost use Rattle.events.specs.declared.input.Input.TheVariants as inputs;
ghost use Rattle.track_picture.specs.Columns.{StandsForColumns, columns_of, moved, happened_by, left_by, known_moved, still_reading};
ghost use Rattle.track_picture.specs.Steps.{packets_by, HasSpaceFor};
ghost use Rattle.track_picture.specs.Still.{SameAhead, closes_none};

use crate::happened::Happened;
use crate::parts::Parts;
use crate::state::TracksideOver;
use crate::stores::ProfileStores;
use balise_groups::{Closed, Reading as GroupReading};
use events::{Input, Reading};
use mode_table::Mode;
use telegram::Received;
use units::{Ms, NoMemory};

impl Parts {
    // An event begins.
    fn begin(&mut self)
        ensures { self.new ≡ record self.old { happened = nothing_happened; stopped = false } }
    {
        self.happened = Happened::NOTHING;
        self.stopped = false;
    }

    // An input without effect here.
    fn pass_over(&mut self)
        ensures { (life : Life) → self.old ≡ columns_of life → self.new ≡ columns_of (grown_so_far life nothing no_groups) }
    {
        self.begin();
    }

    /// A movement: announced groups are missed that the train has passed. A movement that leads too far isn't added.
    /// Answers whether the group being read is left by it, and so has to end.
    pub(crate) fn go(&mut self, reading: &Reading) -> bool
        ensures moved { (life : Life) → self.old ≡ columns_of life → self.new ≡ still_reading life reading.now }
        ensures none { (life : Life) → self.old ≡ columns_of life → result ≡ false → left_by life.entries reading.now ≡ None }
        ensures idle { is_none self.old.groups.current ≡ true → result ≡ false }
        ensures groups { self.new.groups ≡ self.old.groups }
        ensures stands { (life : Life) → self.old ≡ columns_of life → result ≡ false → self.new ≡ known_moved life reading.now }
        ensures kept { SameAhead self.old self.new }
    {
        self.begin();
        self.speed = reading.speed;
        let overrun = self.place.moved(reading.movement).is_err();
        let requested = self.links.missed_at(&self.place);
        self.happened = Happened { overrun, requested };
        self.groups.is_leaving(self.place.sums().path())
    }

    /// Whether no group is being read, so that no movement closes one.
    pub(crate) fn is_idle(&self) -> bool
        ensures { (life : Life) (reading : Reported) → self.now ≡ columns_of life → result ≡ true → left_by life.entries reading ≡ None }
    {
        self.groups.is_idle()
    }

    /// The group being read is left, and ends.
    pub(crate) fn leave(&mut self) -> Option<Closed>
        ensures answer { (life : Life) (reading : Reported) → self.old ≡ still_reading life reading → result ≡ left_by life.entries reading }
        ensures stands { (life : Life) (reading : Reported) → self.old ≡ still_reading life reading → self.new ≡ known_moved life reading }
        ensures packets { packets_of_closed result ≤ packets_in self.old.groups.readings }
    {
        self.groups.moved(self.place.sums().path())
    }

    /// A telegram: the groups that it closes, in places that the caller has.
    pub(crate) fn hear(
        &mut self,
        telegram: Received,
        ended: &mut Option<Closed>,
        whole: &mut Option<Closed>,
    )
        ensures ended { (life : Life) (bytes : List ℕ) → self.old ≡ columns_of life → telegram_in bytes ≡ Some telegram
            → ended.new ≡ (closed_by (groups_of life.entries) (heard life.entries bytes).heard).ended }
        ensures whole { (life : Life) (bytes : List ℕ) → self.old ≡ columns_of life → telegram_in bytes ≡ Some telegram
            → whole.new ≡ (closed_by (groups_of life.entries) (heard life.entries bytes).heard).whole }
        ensures stands { (life : Life) (bytes : List ℕ) → self.old ≡ columns_of life → telegram_in bytes ≡ Some telegram
            → self.new ≡ columns_of (grown_so_far life (heard life.entries bytes) no_groups) }
        ensures packets { packets_of_closed ended.new + packets_of_closed whole.new
            ≤ packets_in self.old.groups.readings + length telegram.packets.items }
    {
        self.begin();
        let reading = GroupReading {
            telegram,
            sums: self.place.sums(),
        };
        self.groups.take_into(reading, ended, whole);
    }

    // The clock gives a moment.
    fn tick(&mut self, moment: Ms)
        ensures stands { (life : Life) → self.old ≡ columns_of life
            → self.new ≡ columns_of (grown_so_far life (record nothing { clock = Some moment }) no_groups) }
        ensures kept { SameAhead self.old self.new }
    {
        self.begin();
        self.moment = moment;
        self.authority.tick(moment);
    }
}

// Whether one of two groups closes.
fn is_any(ended: &Option<Closed>, whole: &Option<Closed>) -> bool
    ensures { result ≡ false → (ended.now ≡ None) × (whole.now ≡ None) }
{
    match (ended, whole) {
        (None, None) => false,
        _ => true,
    }
}

impl<T: ProfileStores> TracksideOver<T> {
    // A movement while a group is being read, and the group that closes by it. There is space for its packets. Answers
    // whether one closes.
    fn move_on(&mut self, mode: Mode, reading: &Reading) -> bool
        requires { packets_in self.old.parts.groups.readings ≤ space_in T.stores self.old }
        ensures idle { packets_in self.old.parts.groups.readings ≡ 0 → SameTrack self.old self.new }
        ensures stands { (life : Life) → StandsForColumns T.stores self.old life
            → StandsForColumns T.stores self.new (grown_so_far life (moved life.entries reading.now)
            (with_groups mode life.entries (moved life.entries reading.now) (happened_by life.entries reading.now))) }
        ensures none { (life : Life) → StandsForColumns T.stores self.old life → result ≡ false
            → (with_groups mode life.entries (moved life.entries reading.now) (happened_by life.entries reading.now)).groups ≡ [] }
    {
        if self.parts.go(reading) {
            let ended = self.parts.leave();
            self.close(mode, &ended);
            true
        } else {
            false
        }
    }

    // A movement, and the group that closed by it. Answers whether one did. Where memory is refused, nothing changes.
    fn move_by(&mut self, mode: Mode, reading: &Reading) -> Result<bool, NoMemory>
        ensures quiet { HasSpaceFor T.stores self.old (inputs.Odometer reading.now) → IsOk result }
        ensures idle { packets_by self.old.parts (inputs.Odometer reading.now) ≡ 0 → OnOk result (SameTrack self.old self.new) }
        ensures stands { OnOk result ((life : Life) → StandsForColumns T.stores self.old life
            → StandsForColumns T.stores self.new (grown_so_far life (moved life.entries reading.now)
            (with_groups mode life.entries (moved life.entries reading.now) (happened_by life.entries reading.now)))) }
        ensures none { IfOk result (λ closes. (life : Life) → StandsForColumns T.stores self.old life → closes ≡ false
            → (with_groups mode life.entries (moved life.entries reading.now) (happened_by life.entries reading.now)).groups ≡ []) }
        ensures kept { closes_none self.old.parts (inputs.Odometer reading.now) ≡ true → OnOk result (SameAhead self.old.parts self.new.parts) }
        ensures err { OnErr result (self.new ≡ self.old) }
    {
        if self.parts.groups.is_idle() {
            self.parts.go(reading);
            return Ok(false);
        }
        let packets = self.parts.groups.packets();
        self.make_space(packets)?;
        Ok(self.move_on(mode, reading))
    }

    // A telegram: the group that it ends closes, and after that its own where that is whole now. There is space for the
    // packets of both. Answers whether one closes.
    fn take(&mut self, mode: Mode, telegram: Received) -> bool
        requires { packets_in self.old.parts.groups.readings + length telegram.packets.items ≤ space_in T.stores self.old }
        ensures idle { packets_in self.old.parts.groups.readings + length telegram.packets.items ≡ 0 → SameTrack self.old self.new }
        ensures stands { (life : Life) (bytes : List ℕ) → StandsForColumns T.stores self.old life → telegram_in bytes ≡ Some telegram
            → StandsForColumns T.stores self.new (grown_so_far life (heard life.entries bytes)
            (with_groups mode life.entries (heard life.entries bytes) nothing_happened)) }
        ensures none { (life : Life) (bytes : List ℕ) → StandsForColumns T.stores self.old life → telegram_in bytes ≡ Some telegram
            → result ≡ false → (with_groups mode life.entries (heard life.entries bytes) nothing_happened).groups ≡ [] }
    {
        let mut ended = None;
        let mut whole = None;
        self.parts.hear(telegram, &mut ended, &mut whole);
        self.close(mode, &ended);
        self.close(mode, &whole);
        is_any(&ended, &whole)
    }

    // A telegram, once there is space for what it may close. It stands out of line, so that other inputs clear no
    // memory for groups. Answers whether a group closes. Where memory is refused, nothing changes.
    #[inline(never)]
    fn read(&mut self, mode: Mode, telegram: Received) -> Result<bool, NoMemory>
        ensures quiet { packets_in self.old.parts.groups.readings + length telegram.packets.items ≤ space_in T.stores self.old → IsOk result }
        ensures idle { packets_in self.old.parts.groups.readings + length telegram.packets.items ≡ 0 → OnOk result (SameTrack self.old self.new) }
        ensures stands { OnOk result ((life : Life) (bytes : List ℕ) → StandsForColumns T.stores self.old life → telegram_in bytes ≡ Some telegram
            → StandsForColumns T.stores self.new (grown_so_far life (heard life.entries bytes)
            (with_groups mode life.entries (heard life.entries bytes) nothing_happened))) }
        ensures none { IfOk result (λ closes. (life : Life) (bytes : List ℕ) → StandsForColumns T.stores self.old life → telegram_in bytes ≡ Some telegram
            → closes ≡ false → (with_groups mode life.entries (heard life.entries bytes) nothing_happened).groups ≡ []) }
        ensures err { OnErr result (self.new ≡ self.old) }
    {
        let packets = self.parts.groups.packets() + telegram.packets().len() as usize;
        self.make_space(packets)?;
        Ok(self.take(mode, telegram))
    }

    // The bytes of a balise. Those that carry no telegram do nothing. Answers whether a group closes.
    fn listen(&mut self, mode: Mode, bytes: &[u8]) -> Result<bool, NoMemory>
        ensures quiet { HasSpaceFor T.stores self.old (inputs.Telegram bytes.now) → IsOk result }
        ensures idle { packets_by self.old.parts (inputs.Telegram bytes.now) ≡ 0 → OnOk result (SameTrack self.old self.new) }
        ensures stands { OnOk result ((life : Life) → StandsForColumns T.stores self.old life
            → StandsForColumns T.stores self.new (grown_so_far life (heard life.entries bytes.now)
            (with_groups mode life.entries (heard life.entries bytes.now) nothing_happened))) }
        ensures none { IfOk result (λ closes. (life : Life) → StandsForColumns T.stores self.old life → closes ≡ false
            → (with_groups mode life.entries (heard life.entries bytes.now) nothing_happened).groups ≡ []) }
        ensures err { OnErr result (self.new ≡ self.old) }
    {
        match Received::new(bytes) {
            Ok(telegram) => self.read(mode, telegram),
            Err(_) => {
                self.parts.pass_over();
                Ok(false)
            }
        }
    }

    /// What an input brings in a mode, and the groups that it closes: first its own effect, then each group is judged,
    /// makes its fix, and the packets are used that the mode uses. Space is made first for all that they may add; where
    /// memory is refused for it, nothing changes. Where there is space for them, none is refused. An input that uses no
    /// packet keeps no more track. A moment, and a reading while no group is being read, leave the authority, the areas
    /// and what is announced. Answers whether a group closes.
    pub fn receive(&mut self, mode: Mode, input: &Input) -> Result<bool, NoMemory>
        ensures quiet { HasSpaceFor T.stores self.old input.now → IsOk result }
        ensures idle { packets_by self.old.parts input.now ≡ 0 → OnOk result (size_in T.stores self.new ≡ size_in T.stores self.old) }
        ensures stands { OnOk result ((life : Life) → StandsForLife T.stores self.old life
            → StandsForLife T.stores self.new (grown life (received mode life.entries input.now))) }
        ensures none { IfOk result (λ closes. (life : Life) → StandsForLife T.stores self.old life → closes ≡ false
            → (received mode life.entries input.now).used.groups ≡ []) }
        ensures kept { closes_none self.old.parts input.now ≡ true → OnOk result (SameAhead self.old.parts self.new.parts) }
        ensures err { OnErr result (self.new ≡ self.old) }
    {
        match input {
            Input::Telegram(bytes) => self.listen(mode, bytes.as_slice()),
            Input::Odometer(reading) => self.move_by(mode, reading),
            Input::Clock(moment) => {
                self.parts.tick(*moment);
                Ok(false)
            }
            Input::Driver(_) => {
                self.parts.pass_over();
                Ok(false)
            }
        }
    }
}
