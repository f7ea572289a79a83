//! Equality, as a proof can rely on it, of what a limit holds for. (`Eq` promises an equivalence only.)
ghost use Rattle.std.specs.Prelude.{◌≡◌, IsTrue};
ghost use Rattle.authority.specs.declared.answers.Release.TheVariants.{Speed, National};

use areas::NationalSpeeds;
use authority::{End, Release};
use braking::Brakes;
use speed_profile::Bounds;
use units::Mph;
use vars::Variable;

/// Whether the same limits a train wherever it is.
pub fn are_same_bounds(one: &Bounds, other: &Bounds) -> bool
    ensures { IsTrue result → one.now ≡ other.now }
{
    if one.maximum != other.maximum || one.category.number() != other.category.number() {
        return false;
    }
    is_same_main(&one.main, &other.main) && is_same_end(&one.end, &other.end)
}

/// Whether the same is known of the brakes.
pub fn are_same_brakes(one: &Brakes, other: &Brakes) -> bool
    ensures { IsTrue result → one.now ≡ other.now }
{
    one.deceleration == other.deceleration && one.reaction == other.reaction
}

/// Whether the national speeds are the same.
pub fn are_same_speeds(one: &NationalSpeeds, other: &NationalSpeeds) -> bool
    ensures { IsTrue result → one.now ≡ other.now }
{
    one.on_sight == other.on_sight && one.shunting == other.shunting
}

// Whether two authorities have the same greatest speed, or there is none.
fn is_same_main(one: &Option<Mph>, other: &Option<Mph>) -> bool
    ensures { IsTrue result → one.now ≡ other.now }
{
    match (one, other) {
        (Some(one), Some(other)) => one == other,
        (None, None) => true,
        _ => false,
    }
}

// Whether two authorities have the same end, or there is none.
fn is_same_end(one: &Option<End>, other: &Option<End>) -> bool
    ensures { IsTrue result → one.now ≡ other.now }
{
    match (one, other) {
        (Some(one), Some(other)) => are_same_ends(one, other),
        (None, None) => true,
        _ => false,
    }
}

fn are_same_ends(one: &End, other: &End) -> bool
    ensures { IsTrue result → one.now ≡ other.now }
{
    one.place == other.place
        && one.speed == other.speed
        && one.location == other.location
        && is_same_release(&one.release, &other.release)
}

// Whether two release speeds are the same, or are the national value.
fn is_same_release(one: &Release, other: &Release) -> bool
    ensures { IsTrue result → one.now ≡ other.now }
{
    match one {
        Release::Speed(speed) => is_speed(other, *speed),
        Release::National => is_national(other),
    }
}

fn is_speed(release: &Release, speed: Mph) -> bool
    ensures { IsTrue result → Speed speed ≡ release.now }
{
    match release {
        Release::Speed(other) => speed == *other,
        Release::National => false,
    }
}

fn is_national(release: &Release) -> bool
    ensures { IsTrue result → National ≡ release.now }
{
    match release {
        Release::Speed(_) => false,
        Release::National => true,
    }
}
