//! Why the brakes are commanded, row by row of their table.
ghost use Rattle.std.specs.Prelude.{◌≡◌};
ghost use Rattle.kernel.specs.Causes.{command_of, place_of, is_among, marked};

use events::Brake;

/// Why a brake is commanded: the rows of the brake table (SUBSET-026, 3.14; the rows: this project's profile). The first
/// six command the emergency brake, the others the service brake.
#[derive(Clone, Copy)]
pub enum BrakeCause {
    /// The driver hasn't revalidated since the power-up (5.4).
    NotRevalidated,
    /// The mode is Trip (4.4).
    InTrip,
    /// The mode is System Failure (4.4).
    InSystemFailure,
    /// A trip was entered, in this life or before it, and isn't acknowledged (5.11).
    OwesTrip,
    /// The speed was above the limit by more than 10 km/h, and the train hasn't stood since (3.13).
    FarTooFast,
    /// The train has rolled backward farther than is allowed since it stood (3.14).
    RolledTooFar,
    /// Linking or a balise group asked for the service brake, and the train hasn't stood since (3.4.4, 3.16.2).
    ServiceBrakeRequested,
    /// The speed was above the limit by more than 5 km/h, and not at or below it since (3.13).
    TooFast,
    /// The train moves in Stand By or in Post Trip (4.4).
    MustStand,
    /// An acknowledgement has been owed too long (5.7, 5.9, 5.10).
    OwesTooLong,
}

impl BrakeCause {
    /// All causes, in the order of the table.
    pub const ALL: [BrakeCause; 10] = [
        BrakeCause::NotRevalidated,
        BrakeCause::InTrip,
        BrakeCause::InSystemFailure,
        BrakeCause::OwesTrip,
        BrakeCause::FarTooFast,
        BrakeCause::RolledTooFar,
        BrakeCause::ServiceBrakeRequested,
        BrakeCause::TooFast,
        BrakeCause::MustStand,
        BrakeCause::OwesTooLong,
    ];

    /// Its place in the table, from 0 on.
    pub fn place(self) -> usize
        ensures { result ≡ place_of self }
    {
        match self {
            BrakeCause::NotRevalidated => 0,
            BrakeCause::InTrip => 1,
            BrakeCause::InSystemFailure => 2,
            BrakeCause::OwesTrip => 3,
            BrakeCause::FarTooFast => 4,
            BrakeCause::RolledTooFar => 5,
            BrakeCause::ServiceBrakeRequested => 6,
            BrakeCause::TooFast => 7,
            BrakeCause::MustStand => 8,
            BrakeCause::OwesTooLong => 9,
        }
    }

    /// The brake that it commands.
    pub fn command(self) -> Brake
        ensures { result ≡ command_of self }
    {
        match self {
            BrakeCause::NotRevalidated
            | BrakeCause::InTrip
            | BrakeCause::InSystemFailure
            | BrakeCause::OwesTrip
            | BrakeCause::FarTooFast
            | BrakeCause::RolledTooFar => Brake::Emergency,
            BrakeCause::ServiceBrakeRequested
            | BrakeCause::TooFast
            | BrakeCause::MustStand
            | BrakeCause::OwesTooLong => Brake::Service,
        }
    }
}

/// The causes that hold after an event, each marked.
#[derive(Clone, Copy)]
pub struct BrakeCauses {
    /// Whether each one holds, in the order of `BrakeCause::ALL`.
    pub marks: [bool; 10],
}

impl BrakeCauses {
    /// Whether a cause is among them.
    pub fn holds(&self, cause: BrakeCause) -> bool
        ensures { result ≡ is_among cause (marked self.now) }
    {
        self.marks[cause.place()]
    }
}
