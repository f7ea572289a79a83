//! Where the train is, by a balise group.
ghost use Rattle.std.specs.Prelude.{◌≡◌};
ghost use Rattle.kernel.specs.Position.{gone_on, went_on, fixed_at, position_by};

use driver::Datum;
use events::{FARTHEST_OFFSET, Position};
use odometry::Place;
use units::Cm;
use vars::GroupIdentity;

// A valid position goes on.
fn gone_on(position: &Position, by: Cm) -> Datum<Position>
    ensures { result ≡ gone_on position.now by }
{
    let distance = position.distance().get() + by.get();
    if distance.unsigned_abs() > FARTHEST_OFFSET {
        return Datum::Invalid(*position);
    }
    let distance = Cm::new_unchecked(distance);
    Datum::Valid(Position::new(position.group(), distance).unwrap())
}

fn went_on(position: &Datum<Position>, by: Cm) -> Datum<Position>
    ensures { result ≡ went_on position.now by }
{
    match position {
        Datum::Valid(position) => gone_on(position, by),
        Datum::Unknown | Datum::Invalid(_) => *position,
    }
}

// By the group of the last fix.
fn fixed_at(group: GroupIdentity, place: &Place) -> Datum<Position>
    ensures { result ≡ fixed_at group place.now }
{
    Datum::Valid(Position::new(group, place.since_fix()).unwrap())
}

/// The position, by the group of the last fix, or else by what was kept of it; how far beyond the group is centimetres.
pub fn position_by(
    group: &Option<GroupIdentity>,
    kept: &Datum<Position>,
    place: &Place,
) -> Datum<Position>
    ensures { result ≡ position_by group.now kept.now place.now }
{
    match group {
        None => went_on(kept, place.estimate()),
        Some(group) => fixed_at(*group, place),
    }
}
