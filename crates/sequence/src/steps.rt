ghost use Rattle.std.specs.Prelude.{◌≡◌, ℕ, ◌+◌, ◌^◌, ◌<◌, true, false};
ghost use Rattle.deciding.specs.Calls.{Stepping};
ghost use Rattle.sequence.specs.Joint.{StepsFit, joint, joined, moved, goes_on};
ghost use Rattle.sequence.specs.Parts.{PartsReached, parts};

use deciding::object::DecidingObject;
use deciding::record::{Operation, Outcome, Record};
use refusal::Refusal;

// Did the station come out of the first part with a mark to go on with?
pub(super) fn goes_on(known: Record) -> bool
    ensures { result ≡ goes_on known }
{
    matches!(
        known,
        Record::Answered {
            outcome: Outcome::Adopt(_),
            ..
        }
    )
}

// What a station's two records come to.
pub(super) fn join(first: Record, second: Record) -> Record
    ensures { StepsFit first second → result ≡ joined first second }
{
    match first {
        Record::Answered {
            proposal,
            steps,
            outcome: Outcome::Adopt(_),
        } => match second {
            Record::Away => Record::UnderWay { proposal, steps },
            Record::UnderWay { steps: more, .. } => Record::UnderWay {
                proposal,
                steps: steps.saturating_add(more),
            },
            Record::Answered {
                steps: rest,
                outcome,
                ..
            } => Record::Answered {
                proposal,
                steps: steps.saturating_add(rest),
                outcome,
            },
        },
        _ => first,
    }
}

// The operation, its register numbered after so many others.
fn shifted(operation: Operation, by: u16) -> Operation
    ensures { by + operation.register < 2 ^ 16 → result ≡ moved by operation }
{
    Operation {
        register: by.saturating_add(operation.register),
        ..operation
    }
}

// The two steps take the parts and not the sequence, which would have to show its fact between a step of the first part and an
// enter of the second.

// A step of a station that has no mark to go on with. If the first part now gives it one, it enters the second with it.
pub(super) fn step_first<X: DecidingObject, Y: DecidingObject>(
    first: &mut X,
    second: &mut Y,
    station: u8,
    coin: u8,
) -> Result<(Operation, Option<Outcome>), Refusal>
    ensures { PartsReached X.DecidingObject Y.DecidingObject first.old second.old →
        goes_on (X.DecidingObject.machine.record_of (X.DecidingObject.state first.old) station) ≡ false →
        Stepping (joint X.DecidingObject.machine Y.DecidingObject.machine) (parts X.DecidingObject Y.DecidingObject first.old second.old) station coin result
        (parts X.DecidingObject Y.DecidingObject first.new second.new) }
{
    let (operation, outcome) = first.step(station, coin)?;
    if let Some(Outcome::Adopt(mark)) = outcome {
        second.enter(station, mark)?;
        return Ok((operation, None));
    }
    Ok((operation, outcome))
}

// A step of a station that came out of the first part with a mark.
pub(super) fn step_second<X: DecidingObject, Y: DecidingObject>(
    first: &X,
    second: &mut Y,
    station: u8,
    coin: u8,
) -> Result<(Operation, Option<Outcome>), Refusal>
    ensures { PartsReached X.DecidingObject Y.DecidingObject first.now second.old →
        goes_on (X.DecidingObject.machine.record_of (X.DecidingObject.state first.now) station) ≡ true →
        Stepping (joint X.DecidingObject.machine Y.DecidingObject.machine) (parts X.DecidingObject Y.DecidingObject first.now second.old) station coin result
        (parts X.DecidingObject Y.DecidingObject first.now second.new) }
{
    let (operation, outcome) = second.step(station, coin)?;
    Ok((shifted(operation, first.registers()), outcome))
}
