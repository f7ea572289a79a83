//! Laws: more to keep to never lets a train run faster.
ghost use Rattle.safety_laws.specs.Limits.{PermittedIsOn, RestrictionsNeverRaise, NearerFitsNoMore};

/// A law: more restrictions never raise the permitted speed.
pub fn restrictions_never_raise()
    ensures permitted { PermittedIsOn }
    ensures never { RestrictionsNeverRaise }
{}

/// A law: coming nearer never makes a speed fit a target that didn't.
pub fn nearer_fits_no_more()
    ensures { NearerFitsNoMore }
{}
