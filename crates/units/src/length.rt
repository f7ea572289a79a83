//! Unsigned centimetres up to 2^40: how long track, a train or a path is.
ghost use Rattle.std.specs.Prelude.{◌≡◌, ◌↔◌, IsSome, IfSome};
ghost use Rattle.units.specs.Limits.{IsLength};

use std::marker::Model;

/// A length of track, of a train or of a path, in centimetres: from 0 to 2^40 (this project's profile).
#[derive(Clone, Copy, PartialEq, Eq, PartialOrd, Ord)]
pub struct Length {
    cm: u64,
}

impl Model for Length {
    ghost use Rattle.std.specs.Prelude.{ℕ};
    ghost use Rattle.units.specs.Limits.{IsLength};

    ghost Value = { ℕ };

    ghost view = { λ l. l.cm };

    ghost invariant = { λ l. IsLength l.cm };

    ghost inverse = { λ n. record { cm = n } };
}

/// The farthest place and the longest path of a life, and the longest length, in centimetres (this project's profile).
pub const FARTHEST: u64 = 1 << 40;

impl Length {
    /// The length of nothing.
    pub const ZERO: Length = Length { cm: 0 };

    /// So many centimetres; None exactly outside the limits.
    pub fn new(cm: u64) -> Option<Length>
        ensures found { IsSome result ↔ IsLength cm }
        ensures value { IfSome result (λ l. l ≡ cm) }
    {
        if cm <= FARTHEST {
            Some(Length { cm })
        } else {
            None
        }
    }

    /// So many centimetres, which are proved to lie within the limits, so nothing is compared.
    pub fn new_unchecked(cm: u64) -> Length
        requires { IsLength cm }
        ensures { result ≡ cm }
    {
        Length { cm }
    }

    /// The number of centimetres.
    pub fn get(self) -> u64
        ensures value { result ≡ self }
        ensures limits { IsLength result }
    {
        self.cm
    }
}
