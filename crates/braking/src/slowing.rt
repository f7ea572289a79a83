//! Stretches of even deceleration: where one ends, and what it takes off.
ghost use Rattle.std.specs.Prelude.{◌≡◌, ◌*◌, ◌≤◌, Option, Some, ℤ, ◌-ℤ◌, ◌≤ℤ◌, ◌<ℤ◌};
ghost use Rattle.units.specs.Stretches.{natural};
ghost use Rattle.track_store.specs.Profiles.{Lasts};

use units::Cm;

/// Where a value ends that lasts up to a place, or an end before that, in centimetres.
pub fn end_of_stretch(next: Option<Cm>, end: Cm) -> Cm
    ensures within { result ≤ℤ end }
    ensures lasts { (value : ℤ → Option ℤ) (place : ℤ) → place <ℤ end → Lasts value place next → Lasts value place (Some result) }
{
    match next {
        Some(next) if next < end => next,
        _ => end,
    }
}

/// What a stretch with the same deceleration on each centimetre, in cm/s^2, takes off the square of the speed, in
/// (m/h)^2. The caller owes places in order, in centimetres.
pub fn taken_off_evenly(slowing: u16, from: Cm, to: Cm) -> u64
    requires small { slowing ≤ 549 }
    requires ordered { from ≤ℤ to }
    ensures { result ≡ 2592 * slowing * natural (to -ℤ from) }
{
    2592 * u64::from(slowing) * (to.get() - from.get()) as u64
}
