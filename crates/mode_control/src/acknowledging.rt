//! What an event does to an acknowledgement.
ghost use Rattle.std.specs.Prelude.{◌≡◌, Some, ◌∷◌, [], not};
ghost use Rattle.areas.specs.Acknowledging.{Happening, after_some, after_event};
ghost use Rattle.mode_control.specs.History.{is_for, acknowledges, only, entered_at, deletes};

use crate::calls::{Call, Kind};
use areas::Acknowledgement;
use driver::{Acknowledged, Action};
use mode_table::{Fate, Item, Mode, status_on};
use units::Ms;

fn turn(acknowledgement: &mut Acknowledgement, turned: &Option<Ms>)
    ensures { acknowledgement.new ≡ after_some (entered_at turned.now) acknowledgement.old }
{
    if let Some(moment) = turned {
        acknowledgement.turn(*moment);
    }
}

fn ask(acknowledgement: &mut Acknowledgement, asks: bool)
    ensures { acknowledgement.new ≡ after_some (only asks Happening.Requested) acknowledgement.old }
{
    if asks {
        acknowledgement.ask();
    }
}

// Whether a mode is entered that deletes acknowledgements.
fn deletes(entered: &Option<Mode>) -> bool
    ensures { result ≡ deletes entered.now }
{
    match entered {
        None => false,
        Some(mode) => matches!(status_on(Item::Acknowledgements, *mode), Fate::Deleted),
    }
}

fn clear(acknowledgement: &mut Acknowledgement, deleted: bool)
    ensures { acknowledgement.new ≡ after_some (only deleted Happening.Deleted) acknowledgement.old }
{
    if deleted {
        acknowledgement.clear();
    }
}

fn settle(acknowledgement: &mut Acknowledgement, settled: bool)
    ensures { acknowledgement.new ≡ after_some (only settled Happening.Settled) acknowledgement.old }
{
    if settled {
        acknowledgement.settle();
    }
}

/// What is called for of its kind, what the mode deletes that is entered, and whether anything of the kind is left.
pub fn answer(
    acknowledgement: &mut Acknowledgement,
    call: &Call,
    entered: &Option<Mode>,
    left: bool,
)
    ensures { acknowledgement.new ≡ after_event (entered_at call.now.turned
        ∷ only call.now.asks Happening.Requested
        ∷ only (deletes entered.now) Happening.Deleted
        ∷ only (not left) Happening.Settled
        ∷ []) acknowledgement.old }
{
    turn(acknowledgement, &call.turned);
    ask(acknowledgement, call.asks);
    clear(acknowledgement, deletes(entered));
    settle(acknowledgement, !left);
}

// Whether what the driver acknowledges is of this kind.
fn is_for(kind: Kind, given: Acknowledged) -> bool
    ensures { result ≡ is_for kind given }
{
    match (kind, given) {
        (Kind::OnSight, Acknowledged::OnSight) => true,
        (Kind::Shunting, Acknowledged::Shunting) => true,
        (Kind::Level0, Acknowledged::Level0) => true,
        _ => false,
    }
}

fn acknowledges(kind: Kind, action: &Action) -> bool
    ensures { result ≡ acknowledges kind (Some action.now) }
{
    match action {
        Action::Acknowledge(given) => is_for(kind, *given),
        _ => false,
    }
}

/// What an accepted action does to the acknowledgement of a kind.
pub fn acknowledge(acknowledgement: &mut Acknowledgement, kind: Kind, action: &Action)
    ensures { acknowledgement.new ≡ after_some (only (acknowledges kind (Some action.now)) Happening.Acknowledged) acknowledgement.old }
{
    if acknowledges(kind, action) {
        acknowledgement.acknowledge();
    }
}
