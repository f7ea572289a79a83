//! The window in which a limit may stay the same while the train moves on.
ghost use Rattle.std.specs.Prelude.{◌≡◌, ◌≤ℤ◌, pos, IfSome};
ghost use Rattle.speed_supervision.specs.Steady.{Covers};

use units::{Cm, Mph, Stretch};

/// The most and the least that a train may cover while it runs 10 metres and four seconds' way on from where it is; None
/// outside the limits of places.
pub fn window(here: &Stretch, speed: Mph) -> Option<(Stretch, Stretch)>
    ensures widest { IfSome result (λ stretches. Covers stretches.0 here.now) }
    ensures narrowest { IfSome result (λ stretches. Covers here.now stretches.1) }
{
    let way = way_on(speed)?;
    let front = here.max_front();
    let widest = Stretch::new(here.rear(), here.min_front(), front.checked_add(way)?)?;
    let rear = gone_on(here.rear(), way, front)?;
    let min_front = gone_on(here.min_front(), way, front)?;
    let narrowest = Stretch::new(rear, min_front, front)?;
    Some((widest, narrowest))
}

// How far a window reaches: a speed of 9 m/h is a way of 1 cm in four seconds.
fn way_on(speed: Mph) -> Option<Cm>
    ensures { IfSome result (λ way. pos 0 ≤ℤ way) }
{
    Cm::new(1_000 + i64::from(speed.get() / 9))
}

// A place so far on, but none beyond a last one; None outside the limits.
fn gone_on(place: Cm, way: Cm, last: Cm) -> Option<Cm>
    requires way { pos 0 ≤ℤ way }
    requires last { place ≤ℤ last }
    ensures { IfSome result (λ there. place ≤ℤ there) }
{
    Some(place.checked_add(way)?.min(last))
}
