//! National values, as C gets them.
ghost use Rattle.std.specs.Prelude.{◌≡◌, ◌≤◌, length};
ghost use Rattle.c_numbers.specs.NationalItems.{open_reported, AreCountries, DescribesNational};

use national::{CountryValues, OverrideDuration, StaffResponsibleDistance};
use vars::{Country, Variable};

/// The number of a time or a distance that has no end.
const ENDLESS: u32 = 4_294_967_295;

/// The national values in force, and the countries that they are for.
#[repr(C)]
#[derive(Clone, Copy)]
pub struct EtcsNational {
    /// The speed in Shunting, in metres per hour, as each speed here.
    pub shunting: u32,
    /// The speed in Staff Responsible.
    pub staff_responsible: u32,
    /// The speed in On Sight.
    pub on_sight: u32,
    /// The speed in Unfitted.
    pub unfitted: u32,
    /// The release speed.
    pub release: u32,
    /// How far the train may roll back, in centimetres.
    pub roll: u32,
    /// The speed at or below which the trip may be overridden.
    pub override_allowed: u32,
    /// The speed while the trip is overridden.
    pub override_speed: u32,
    /// How far the trip stays overridden, in centimetres.
    pub override_distance: u32,
    /// How long the trip stays overridden, in milliseconds; 2^32 - 1 has no end.
    pub override_time: u32,
    /// How far the train may run in Staff Responsible, in centimetres; 2^32 - 1 has no end.
    pub staff_responsible_distance: u32,
    /// How many countries the values are for, at most 32.
    pub count: u32,
    /// The countries (NID_C), and zeros after them.
    pub countries: [u16; 32],
}

// A time, or the number of one that has no end.
fn time_reported(time: Option<OverrideDuration>) -> u32
    ensures { result ≡ open_reported time }
{
    match time {
        Some(time) => time.get(),
        None => ENDLESS,
    }
}

// A distance, or the number of one that has no end.
fn distance_reported(distance: Option<StaffResponsibleDistance>) -> u32
    ensures { result ≡ open_reported distance }
{
    match distance {
        Some(distance) => distance.get(),
        None => ENDLESS,
    }
}

// The countries, in the first places, and zeros after them.
fn countries_reported(countries: &[Country]) -> [u16; 32]
    requires { length countries.now ≤ 32 }
    ensures { AreCountries countries.now result }
{
    let mut all = [0; 32];
    for i in 0..countries.len() {
        all[i] = countries[i].number() as u16;
    }
    all
}

/// As C sees them.
pub(crate) fn national_reported(national: &CountryValues) -> EtcsNational
    ensures { DescribesNational national.now result }
{
    let values = national.values();
    let countries = national.countries();
    EtcsNational {
        shunting: values.shunting.get(),
        staff_responsible: values.staff_responsible.get(),
        on_sight: values.on_sight.get(),
        unfitted: values.unfitted.get(),
        release: values.release.get(),
        roll: values.roll.get(),
        override_allowed: values.override_allowed.get(),
        override_speed: values.override_speed.get(),
        override_distance: values.override_distance.get(),
        override_time: time_reported(values.override_time),
        staff_responsible_distance: distance_reported(values.staff_responsible_distance),
        count: countries.len() as u32,
        countries: countries_reported(countries),
    }
}
