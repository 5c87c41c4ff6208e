ghost use Rattle.std.specs.Prelude.{◌≡◌};
ghost use Rattle.deciding.specs.Refusable.{Refusable};
ghost use Rattle.trial.specs.declared.call.Call.{Call as Asked};
ghost use Rattle.trial.specs.Perform.{TrialState};
ghost use Rattle.trial.specs.Trials.{tried, whole};
ghost use Rattle.rehearsal.specs.Responders.{Heard, Responds, performs, refuses_all};

use deciding::object::DecidingObject;
use refusal::Refusal;
use trial::Trial;
use trial::call::{Answer, Call};

// What the calls of a schedule are put to: a trial, or before there is one nothing.
pub trait Responder {
    ghost State: { Type 0 };

    ghost answers: { State → Asked → Heard State };

    ghost state: { Self → State };

    fn respond(&mut self, call: Call) -> Answer
        ensures { Responds answers (state self.old) call result (state self.new) };
}

impl<D: DecidingObject> Responder for Trial<D> {
    ghost State = { TrialState (Refusable D.DecidingObject.machine.State) };

    ghost answers = { performs (whole D.DecidingObject) };

    ghost state = { tried D.DecidingObject };

    fn respond(&mut self, call: Call) -> Answer {
        self.perform(call)
    }
}

// Before an N was accepted: every call is refused.
#[derive(Drop)]
pub struct NoTrial {}

impl Responder for NoTrial {
    ghost State = { Unit {0} };

    ghost answers = { refuses_all };

    ghost state = { λ n. tt };

    fn respond(&mut self, call: Call) -> Answer {
        Err(Refusal::NoPile)
    }
}
