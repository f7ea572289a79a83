//! The texts of the causes of a brake.
ghost use Rattle.std.specs.Prelude.{◌≡◌};
ghost use Rattle.reasons.specs.CauseTexts.{cause_name_of, sentence_of, ending_of};

use kernel::BrakeCause;

/// The name of a cause in JSON.
pub fn cause_name(cause: BrakeCause) -> &'static str
    ensures { result.now ≡ cause_name_of cause }
{
    match cause {
        BrakeCause::NotRevalidated => "not_revalidated",
        BrakeCause::InTrip => "in_trip",
        BrakeCause::InSystemFailure => "in_system_failure",
        BrakeCause::OwesTrip => "owes_trip",
        BrakeCause::FarTooFast => "far_too_fast",
        BrakeCause::RolledTooFar => "rolled_too_far",
        BrakeCause::ServiceBrakeRequested => "service_brake_requested",
        BrakeCause::TooFast => "too_fast",
        BrakeCause::MustStand => "must_stand",
        BrakeCause::OwesTooLong => "owes_too_long",
    }
}

/// What a cause says.
pub fn sentence(cause: BrakeCause) -> &'static str
    ensures { result.now ≡ sentence_of cause }
{
    match cause {
        BrakeCause::NotRevalidated => "the driver has not revalidated since the power-up",
        BrakeCause::InTrip => "the mode is Trip",
        BrakeCause::InSystemFailure => "the mode is System Failure",
        BrakeCause::OwesTrip => "a trip is not acknowledged",
        BrakeCause::FarTooFast =>
            "the speed was above the limit by more than 10 km/h, and the train has not stood since",
        BrakeCause::RolledTooFar => "the train rolled backward too far since it stood",
        BrakeCause::ServiceBrakeRequested =>
            "linking or a balise group asked for the service brake, and the train has not stood since",
        BrakeCause::TooFast =>
            "the speed was above the limit by more than 5 km/h, and not within it since",
        BrakeCause::MustStand => "the train moves where it must stand",
        BrakeCause::OwesTooLong => "an acknowledgement has been owed for 5 s or longer",
    }
}

/// How it ends.
pub fn ending(cause: BrakeCause) -> &'static str
    ensures { result.now ≡ ending_of cause }
{
    match cause {
        BrakeCause::NotRevalidated => "ends when the driver has revalidated",
        BrakeCause::InTrip => "ends when the driver acknowledges the trip at standstill",
        BrakeCause::InSystemFailure => "ends at a power-up alone",
        BrakeCause::OwesTrip => "ends when the driver acknowledges the trip at standstill",
        BrakeCause::FarTooFast => "ends when the train stands",
        BrakeCause::RolledTooFar =>
            "ends when the train stands, or a greater D_NVROLL comes into force",
        BrakeCause::ServiceBrakeRequested => "ends when the train stands",
        BrakeCause::TooFast => "ends when the speed is within the limit",
        BrakeCause::MustStand => "ends when the train stands, or in another mode",
        BrakeCause::OwesTooLong =>
            "ends when the driver acknowledges, a mode deletes it, or a further transition begins it anew",
    }
}
