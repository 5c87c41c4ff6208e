ghost use Rattle.conciliators.specs.Adopting.{EmptyOrMark};
ghost use Rattle.conciliators.specs.Leader.{leader_conciliator};
ghost use Rattle.conciliators.specs.LeaderKept.{leader_kept};

use deciding::record::Outcome;
use machine::marks::{content_for, mark_of};
use machine::protocol::{Proposer, Protocol};
use machine::status::Plan;
use refusal::Refusal;

// The leader conciliator of so many stations, one of which is the leader, on register 0 alone.
#[derive(Clone, Copy)]
pub struct Leader {
    pub stations: u8,
    pub leader: u8,
}

// Every station takes one step.
#[derive(Clone, Copy)]
pub enum LeaderPhase {
    OnlyStep,
}

impl Protocol for Leader {
    type Phase = LeaderPhase;

    ghost rules = { leader_conciliator };

    ghost meets = { EmptyOrMark };

    ghost kept = { leader_kept };

    fn stations(&self) -> u8 {
        self.stations
    }

    fn limit(&self) -> u16 {
        1 // the only step
    }

    fn registers(&self) -> u16 {
        1 // register 0
    }

    fn ratifying(&self) -> bool {
        false
    }

    fn question(&self) -> Result<(), Refusal> {
        if self.leader < self.stations {
            Ok(())
        } else {
            Err(Refusal::LeaderOutOfRange)
        }
    }

    fn begin(&self) -> LeaderPhase {
        LeaderPhase::OnlyStep
    }

    fn plan(&self, proposer: Proposer, _phase: &LeaderPhase) -> Plan {
        if proposer.station == self.leader {
            Plan::Write(0, content_for(proposer.proposal))
        } else {
            Plan::Read(0)
        }
    }

    fn advance(
        &self,
        proposer: Proposer,
        _phase: &mut LeaderPhase,
        content: u16,
        _coin: u8,
    ) -> Option<Outcome> {
        let adopted = if proposer.station == self.leader || content == 0 {
            proposer.proposal
        } else {
            mark_of(content)
        };
        Some(Outcome::Adopt(adopted))
    }
}
