#![tactic(auto)]

ghost use Rattle.std.specs.Prelude.{◌≡◌};
ghost use Rattle.conciliators.specs.Adopting.{EmptyOrMark};
ghost use Rattle.waiting.specs.Waiting.{waiting_conciliator};
ghost use Rattle.waiting.specs.WaitingKept.{waiting_kept};

use deciding::record::Outcome;
use machine::protocol::{Proposer, Protocol};
use machine::status::Plan;
use refusal::Refusal;

// A conciliator that only waits: a station reads register 0, at least once and as often again as is asked for, up to a
// limit of 1,000, and adopts its own mark. It serves to try the largest sizes, which no other machine comes near.
#[derive(Clone, Copy)]
pub struct Waiting {
    pub stations: u8,
    pub more: u16,
}

#[derive(Clone, Copy)]
pub enum WaitingPhase {
    Wait { reads: u16 },
}

impl Protocol for Waiting {
    type Phase = WaitingPhase;

    ghost rules = { waiting_conciliator };

    ghost meets = { EmptyOrMark };

    ghost kept = { waiting_kept };

    fn stations(&self) -> u8 {
        self.stations
    }

    fn limit(&self) -> u16 {
        1 + self.more.min(999)
    }

    fn registers(&self) -> u16 {
        1 // register 0
    }

    fn ratifying(&self) -> bool {
        false
    }

    fn question(&self) -> Result<(), Refusal> {
        Ok(()) // it asks nothing of its own
    }

    fn begin(&self) -> WaitingPhase {
        WaitingPhase::Wait { reads: 0 }
    }

    fn plan(&self, _proposer: Proposer, _phase: &WaitingPhase) -> Plan {
        Plan::Read(0)
    }

    fn advance(
        &self,
        proposer: Proposer,
        phase: &mut WaitingPhase,
        _content: u16,
        _coin: u8,
    ) -> Option<Outcome> {
        let WaitingPhase::Wait { reads } = *phase;
        let reads = reads.saturating_add(1);
        if reads >= self.limit() {
            return Some(Outcome::Adopt(proposer.proposal));
        }
        *phase = WaitingPhase::Wait { reads };
        None
    }
}
