//! D_NVSTFF in centimetres, up to 327,660 m.
ghost use Rattle.std.specs.Prelude.{◌≡◌, ◌↔◌, IsSome, IfSome};
ghost use Rattle.national.specs.Limits.{IsStaffResponsibleDistance};

use std::marker::Model;

/// How far the train may run in Staff Responsible where that has an end (D_NVSTFF; SUBSET-026, 7.5.1), in centimetres:
/// from 0 to 32,766,000.
#[derive(Clone, Copy, PartialEq, Eq)]
pub struct StaffResponsibleDistance {
    cm: u32,
}

impl Model for StaffResponsibleDistance {
    ghost use Rattle.std.specs.Prelude.{ℕ};
    ghost use Rattle.national.specs.Limits.{IsStaffResponsibleDistance};

    ghost Value = { ℕ };

    ghost view = { λ d. d.cm };

    ghost invariant = { λ d. IsStaffResponsibleDistance d.cm };

    ghost inverse = { λ n. record { cm = n } };
}

/// The longest one, in centimetres.
const LONGEST: u32 = 32_766_000;

impl StaffResponsibleDistance {
    /// So many centimetres; None exactly outside the limits.
    pub fn new(cm: u32) -> Option<StaffResponsibleDistance>
        ensures found { IsSome result ↔ IsStaffResponsibleDistance cm }
        ensures value { IfSome result (λ d. d ≡ cm) }
    {
        if cm <= LONGEST {
            Some(StaffResponsibleDistance { cm })
        } else {
            None
        }
    }

    /// The number of centimetres.
    pub fn get(self) -> u32
        ensures value { result ≡ self }
        ensures limits { IsStaffResponsibleDistance result }
    {
        self.cm
    }
}
