ghost use Rattle.std.specs.Prelude.{◌≡◌, MatchResult};
ghost use Rattle.trial.specs.Trials.{Begun, Rehearsed, Runs, Untouched};

use super::Trial;
use super::call::{Answer, Call};
use deciding::object::DecidingObject;
use std::alloc::{AllocError, Global};

// Puts the calls to the trial one after another, and tells what each got. Where memory for the answers is lacking,
// no call is made.
//
// `law` is the promise about whole runs: whatever the calls are, in whatever order the stations step and whichever
// stop, the answers of a trial that began new obey the law of specs/Law.antt. `untouched` asks less of the trial for it:
// that all records are away and nobody is stopped.
pub fn rehearse<D: DecidingObject>(
    trial: &mut Trial<D>,
    calls: &[Call],
    heap: Global,
) -> Result<Vec<Answer>, AllocError>
    ensures runs { MatchResult result
        (λ answers. Runs D.DecidingObject trial.old calls.now answers.items trial.new)
        (λ _. trial.new ≡ trial.old) }
    ensures law { Begun D.DecidingObject trial.old → MatchResult result
        (λ answers. Rehearsed D.DecidingObject trial.old calls.now answers.items trial.new)
        (λ _. Begun D.DecidingObject trial.new) }
    ensures untouched { Untouched D.DecidingObject trial.old → MatchResult result
        (λ answers. Rehearsed D.DecidingObject trial.old calls.now answers.items trial.new)
        (λ _. Untouched D.DecidingObject trial.new) }
{
    let mut answers = Vec::with_capacity(heap, calls.len())?;
    for call in calls {
        answers.push_reserved(trial.perform(*call));
    }
    Ok(answers)
}
