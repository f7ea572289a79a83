//! National values with the countries where they hold: reported by packet 3, or the defaults.
ghost use Rattle.std.specs.Prelude.{◌≡◌, ◌≤◌, [], ◌∷◌, length};
ghost use Rattle.national.specs.Values.{defaults, values_for, reported_by, is_any, is_among, is_foreign};

use crate::Values;
use arrayvec::ArrayVec;
use packets::NationalValues;
use std::marker::Model;
use vars::Country;

/// For how many countries values are at most: those that a packet 3 lists, and that of its group.
pub const MOST_COUNTRIES: usize = 32;

/// National values, with the countries (NID_C) that they are for (SUBSET-026, 3.18.2).
#[derive(Drop)]
pub struct CountryValues {
    values: Values,
    // In the order in which they came; none means no country.
    countries: ArrayVec<Country, MOST_COUNTRIES>,
}

impl Model for CountryValues {
    ghost use Rattle.national.specs.Values.{ValuesFor};

    ghost Value = { ValuesFor };

    ghost view = { λ v. record { values = v.values; countries = v.countries.items } };
}

impl CountryValues {
    /// These values for these countries, at most 32.
    pub fn new(values: &Values, countries: ArrayVec<Country, MOST_COUNTRIES>) -> Self
        ensures { result ≡ values_for values.now countries.items }
    {
        CountryValues {
            values: *values,
            countries,
        }
    }

    /// The values, in the units of `Values`.
    pub fn values(&self) -> &Values
        ensures { result.now ≡ self.now.values }
    {
        &self.values
    }

    /// The countries (NID_C) that the values are for, repeated where they came so; none where they are for no country.
    pub fn countries(&self) -> &[Country]
        ensures value { result.now ≡ self.now.countries }
        ensures few { length result.now ≤ MOST_COUNTRIES }
    {
        self.countries.as_slice()
    }

    /// An equal value.
    pub fn copy(&self) -> Self
        ensures { result ≡ self.now }
    {
        CountryValues {
            values: self.values,
            countries: ArrayVec::try_from(self.countries.as_slice()).unwrap(),
        }
    }

    /// The defaults, for no country.
    pub(crate) fn for_no_country() -> Self
        ensures { result ≡ values_for defaults [] }
    {
        CountryValues {
            values: Values::defaults(),
            countries: ArrayVec::new(),
        }
    }

    /// The defaults, for one country.
    pub(crate) fn defaults_for(country: Country) -> Self
        ensures { result ≡ values_for defaults (country ∷ []) }
    {
        let mut countries = ArrayVec::new();
        countries.push(country);
        CountryValues {
            values: Values::defaults(),
            countries,
        }
    }

    /// The values of a packet 3 of a group of a country.
    pub(crate) fn reported_by(packet: &NationalValues, country: Country) -> Self
        ensures { result ≡ reported_by packet.now country }
    {
        let mut countries = ArrayVec::try_from(packet.countries.as_slice()).unwrap();
        countries.push(country);
        CountryValues {
            values: Values::of(packet),
            countries,
        }
    }

    /// Whether a country is none of several.
    pub(crate) fn is_foreign(&self, country: Country) -> bool
        ensures { result ≡ is_foreign country self.now.countries }
    {
        let countries = self.countries.as_slice();
        is_any(countries) && !is_among(countries, country)
    }
}

fn is_any(countries: &[Country]) -> bool
    ensures { result ≡ is_any countries.now }
{
    !countries.is_empty()
}

fn is_among(countries: &[Country], country: Country) -> bool
    ensures { result ≡ is_among country countries.now }
{
    countries.iter().any(|other| *other == country)
}
