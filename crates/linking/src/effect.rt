//! A trip and the service brake, as linking asks for them, alone or together.
ghost use Rattle.std.specs.Prelude.{◌≡◌};
ghost use Rattle.linking.specs.Linking.{combined_with, effect_of};

use vars::LinkReaction;

/// What linking asks of the train (SUBSET-026, 3.4.4 and 3.16.2). Both may be asked for at once.
#[derive(Clone, Copy)]
pub struct Effect {
    /// Whether it asks for a trip.
    pub trip: bool,
    /// Whether it asks for the service brake.
    pub service: bool,
}

impl Effect {
    /// Linking asks for nothing.
    pub const NONE: Effect = Effect {
        trip: false,
        service: false,
    };

    /// Linking asks for a trip alone.
    pub const TRIP: Effect = Effect {
        trip: true,
        service: false,
    };

    /// Linking asks for the service brake alone.
    pub const SERVICE: Effect = Effect {
        trip: false,
        service: true,
    };

    /// What a Q_LINKREACTION asks for.
    pub fn of(reaction: LinkReaction) -> Effect
        ensures { result ≡ effect_of reaction }
    {
        match reaction {
            LinkReaction::Trip => Effect::TRIP,
            LinkReaction::ServiceBrake => Effect::SERVICE,
            LinkReaction::NoReaction => Effect::NONE,
        }
    }

    /// What one or the other asks for.
    pub fn combined_with(self, other: Effect) -> Effect
        ensures { result ≡ combined_with self other }
    {
        Effect {
            trip: self.trip || other.trip,
            service: self.service || other.service,
        }
    }
}
