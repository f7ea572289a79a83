//! The targets where values begin.
ghost use Rattle.std.specs.Prelude.{◌≡◌, ◌+ℤ◌, ◌≤ℤ◌, ◌<ℤ◌, pos, MatchOption};
ghost use Rattle.speed_profile.specs.Ahead.{greatest_place, unknown_target, static_target};
ghost use Rattle.speed_profile.specs.Starts.{first_covered, first_target, first_in_area};

use crate::{Bounds, CategorySpeeds};
use areas::{Area, NationalSpeeds};
use authority::End;
use braking::Target;
use track_store::Restriction;
use units::{Cm, Mph};

/// The centimetre after another one; None after the last one that there is.
pub fn next_after(place: Cm) -> Option<Cm>
    ensures { MatchOption result (greatest_place <ℤ (place +ℤ pos 1)) (λ next. next ≡ place +ℤ pos 1) }
{
    Cm::new(place.get() + 1)
}

/// A place where the train must stop.
pub fn stop_at(place: Cm) -> Target
    ensures { result ≡ record { place = place; speed = 0 } }
{
    Target {
        place,
        speed: Mph::new(0).unwrap(),
    }
}

/// What the static speed of a centimetre asks for. No centimetre lies beyond the greatest place.
pub fn static_target(bounds: &Bounds, place: Cm, speeds: Option<CategorySpeeds>) -> Option<Target>
    ensures value { result ≡ static_target bounds.now place speeds }
    ensures within { place ≤ℤ greatest_place }
{
    match speeds {
        Some(speeds) => Some(Target {
            place,
            speed: speeds.for_category(bounds.category),
        }),
        None => unknown_target(&bounds.end, place),
    }
}

// What a centimetre without a static speed asks for: a stop, where it lies before the end of the authority.
fn unknown_target(end: &Option<End>, place: Cm) -> Option<Target>
    ensures { result ≡ unknown_target end.now place }
{
    match end {
        Some(end) if place < end.place => Some(stop_at(place)),
        _ => None,
    }
}

// The first centimetre ahead of a front that a restriction may cover, where no track before a mark counts.
fn first_covered(front: Cm, mark: Cm, restriction: &Restriction) -> i64
    ensures { result ≡ first_covered front mark restriction.now }
{
    let first = (front.get() + 1).max(mark.get());
    first.max(restriction.start.get())
}

/// What a restriction asks for there, if it covers that centimetre.
pub fn first_target(front: Cm, mark: Cm, restriction: &Restriction) -> Option<Target>
    ensures { result ≡ first_target front mark restriction.now }
{
    let first = first_covered(front, mark, restriction);
    match Cm::new(first) {
        Some(place) if first < restriction.start.get() + i64::from(restriction.length.get()) => {
            Some(Target {
                place,
                speed: restriction.speed,
            })
        }
        _ => None,
    }
}

/// What a mode area asks for at the first centimetre ahead of a front that it may cover, if it covers that one.
pub fn first_in_area(front: Cm, national: &NationalSpeeds, area: &Area) -> Option<Target>
    ensures { result ≡ first_in_area front national.now area.now }
{
    let place = next_after(front)?.max(area.start);
    if area.remains(place) {
        Some(Target {
            place,
            speed: area.speed_in(national),
        })
    } else {
        None
    }
}
