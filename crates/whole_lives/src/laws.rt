//! What follows from the contracts alone (this project's profile).
ghost use Rattle.onboard.specs.Answers.{SpaceForOthers};
ghost use Rattle.whole_lives.specs.Chains.{AnyNumberOfLives};
ghost use Rattle.whole_lives.specs.Laws.{ForgetsAcross, ReleasesBrake, ImagesAreEndless, OutlivesDamage, FormattedIsReady};
ghost use Rattle.unit_start.specs.Lives.{OneCause, StandsBy};
ghost use Rattle.whole_lives.specs.Runs.{LivesCompose};

use kernel::{brakes_until_revalidated, power_up_forgets};
use ring::ring_is_endless;

/// A law: wherever a life is cut, and where it hands its disk back, what it leaves is ready for the next one.
pub fn lives_compose()
    ensures { LivesCompose }
{}

/// A law: whatever lives follow one another, the list that is found last has all that was ever released.
pub fn releases_stay()
    ensures { AnyNumberOfLives }
{}

/// A law: after each power-up the mode is Stand By, whatever the cold movement value.
pub fn stands_by()
    ensures { StandsBy }
{}

/// A law: nothing but what is kept crosses a power-up.
pub fn forgets_across()
    ensures { ForgetsAcross }
{
    power_up_forgets();
}

/// A law: until the driver has revalidated, all that is released commands the emergency brake.
pub fn commands_emergency_until_revalidated()
    ensures { ReleasesBrake }
{
    brakes_until_revalidated();
}

/// A law: each image that represents a list has its last records, none skipped, from its first whole block on.
pub fn images_are_endless()
    ensures { ImagesAreEndless }
{
    ring_is_endless();
}

/// A law: a disk is ready for the next life whatever happened to its older slots, from the newest block on.
pub fn outlives_damage()
    ensures { OutlivesDamage }
{}

/// A law: a disk that `journal::format` made is ready for a first life.
pub fn formatted_is_ready()
    ensures { FormattedIsReady }
{}

/// A law: no disk gives an opening two causes to be refused, along with a fault of the device.
pub fn one_cause()
    ensures { OneCause }
{}

/// A law: a moment of the clock and an action of the driver take no memory.
pub fn others_have_space()
    ensures { SpaceForOthers }
{}
