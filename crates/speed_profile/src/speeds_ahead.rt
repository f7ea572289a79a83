//! An approach to the static speeds ahead, and to another target between them.
ghost use Rattle.std.specs.Prelude.{◌≡◌, ◌<◌, List, ◌∷◌, ◌++◌, Some, IfSome};
ghost use Rattle.braking.specs.declared.target.Target.{Target as RequestedTarget};
ghost use Rattle.braking.specs.Approaches.{lowered_by};

use crate::CategorySpeeds;
use crate::starts::stop_at;
use crate::targets::SpeedTargets;
use braking::{Approach, Target};
use track_store::Profile;
use units::{Cm, Permille};

/// Lowers the speed of an approach for all static speeds that are left. Where the train can come to a stop before the
/// next one, it fits all of them.
pub fn lower_by_speeds<'a, S: Profile<CategorySpeeds>, G: Profile<Permille>>(
    approach: &mut Approach<'a, G>,
    speeds: &mut SpeedTargets<'a, S>,
)
    ensures { approach.new ≡ lowered_by (G.value approach.old.gradient) speeds.old.targets approach.old }
{
    while let Some(place) = speeds.start() {
        lower_by_next(approach, speeds, place);
    }
}

/// Lowers the speed of an approach for the static speeds that begin up to a target, and for the target.
pub fn lower_up_to<'a, S: Profile<CategorySpeeds>, G: Profile<Permille>>(
    approach: &mut Approach<'a, G>,
    speeds: &mut SpeedTargets<'a, S>,
    target: &Target,
)
    ensures { (others : List RequestedTarget) → lowered_by (G.value approach.new.gradient) (speeds.new.targets ++ others) approach.new
        ≡ lowered_by (G.value approach.old.gradient) (speeds.old.targets ++ (target.now ∷ others)) approach.old }
{
    while let Some(place) = speeds.start() {
        if target.place < place {
            break;
        }
        lower_by_next(approach, speeds, place);
    }
    approach.lower(target);
}

// Lowers the speed for the next static speed, or leaves out all that are left where the train can come to a stop before
// them. The caller owes the place where the next one begins.
fn lower_by_next<'a, S: Profile<CategorySpeeds>, G: Profile<Permille>>(
    approach: &mut Approach<'a, G>,
    speeds: &mut SpeedTargets<'a, S>,
    place: Cm,
)
    requires { speeds.old.speeds_from ≡ Some place }
    ensures requested { lowered_by (G.value approach.new.gradient) speeds.new.targets approach.new
        ≡ lowered_by (G.value approach.old.gradient) speeds.old.targets approach.old }
    ensures fewer { IfSome speeds.new.speeds_from (λ left. speeds.new.most < speeds.old.most) }
{
    if approach.fits(&stop_at(place)) {
        speeds.skip_all();
    } else {
        lower_by_piece(approach, speeds);
    }
}

/// Lowers the speed of an approach for the nearest piece of the static speeds that are left.
pub fn lower_by_piece<'a, S: Profile<CategorySpeeds>, G: Profile<Permille>>(
    approach: &mut Approach<'a, G>,
    speeds: &mut SpeedTargets<'a, S>,
)
    ensures requested { lowered_by (G.value approach.new.gradient) speeds.new.targets approach.new
        ≡ lowered_by (G.value approach.old.gradient) speeds.old.targets approach.old }
    ensures fewer { IfSome speeds.old.speeds_from (λ place. speeds.new.most < speeds.old.most) }
{
    if let Some(target) = speeds.next_piece() {
        approach.lower(&target);
    }
}
