//! Values that packet 3 announces, and the place from which they hold.
ghost use Rattle.std.specs.Prelude.{◌≡◌};
ghost use Rattle.national.specs.InForce.{fact_of, start_from, is_reached, announcement_of};

use crate::CountryValues;
use packets::NationalValues;
use units::{Cm, GroupPlace};
use vars::{Country, Scale, StartPlace};

/// National values that are to come into force (packet 3; SUBSET-026, 3.18.2).
#[derive(Drop)]
pub struct Announcement {
    /// The values, with the countries that they are for.
    pub values: CountryValues,
    /// Where they come into force, in centimetres; None: wherever the train is.
    pub start: Option<Cm>,
}

impl Announcement {
    /// What packet 3 announces, for the countries that it lists and that of its group, counted from the place of its
    /// group, in centimetres.
    pub fn of(packet: &NationalValues, country: Country, place: GroupPlace) -> Self
        ensures { result ≡ announcement_of (fact_of packet.now country place) }
    {
        Announcement {
            values: CountryValues::reported_by(packet, country),
            start: start_from(packet.scale, place, packet.start),
        }
    }

    /// Whether the maximum safe front, in centimetres, has reached where they come into force.
    pub fn is_reached(&self, max_front: Cm) -> bool
        ensures { result ≡ is_reached self.now.start max_front }
    {
        match self.start {
            None => true,
            Some(start) => start <= max_front,
        }
    }

    /// An equal value.
    pub fn copy(&self) -> Self
        ensures { result ≡ self.now }
    {
        Announcement {
            values: self.values.copy(),
            start: self.start,
        }
    }
}

// Where an announcement comes into force that counts from a place.
fn start_from(scale: Scale, place: GroupPlace, start: StartPlace) -> Option<Cm>
    ensures { result ≡ start_from scale place start }
{
    match start {
        StartPlace::At(distance) => Some(place.ahead(distance.in_scale(scale))),
        StartPlace::Now => None,
    }
}
