ghost use Rattle.std.specs.Prelude.{◌≡◌, ℕ, ◌<◌};
ghost use Rattle.deciding.specs.Refusable.{granted};
ghost use Rattle.machine.specs.Protocol.{Protocol as Rules, outcome_of, phase_after};
ghost use Rattle.machine.specs.Kept.{Kept};

use super::status::Plan;
use deciding::record::Outcome;
use refusal::Refusal;

// The station whose turn it is, with the mark that it proposed.
#[derive(Clone, Copy)]
pub struct Proposer {
    pub station: u8,
    pub proposal: u8,
}

// What every station of a machine does, step by step. A value of the type is the setup that all stations share; a station's own
// place is its phase, which lies in a row and is read by proofs, as a closure could not.
pub trait Protocol {
    type Phase: Copy;

    // The algorithm.
    ghost rules: { Rules Self Self.Phase };

    // What a station may find by the operation of a phase: the contents are two bytes wide, marks only one.
    ghost meets: { Self.Phase → ℕ → Type 0 };

    // An invariant of the algorithm, with the proof that it is kept and gives the laws.
    ghost kept: { Kept rules meets };

    fn stations(&self) -> u8
        ensures { result ≡ rules.stations self.now };

    fn limit(&self) -> u16
        ensures { result ≡ rules.limit self.now };

    fn registers(&self) -> u16
        ensures { result ≡ rules.registers self.now };

    fn ratifying(&self) -> bool
        ensures { result ≡ rules.ratifying };

    // The protocol's own question at a making, asked after that for the number of stations. A protocol that has none says so: a
    // body for it here would have to keep the clause whatever the rules are.
    fn question(&self) -> Result<(), Refusal>
        ensures { result ≡ granted (rules.question self.now) };

    // The phase of a station that has just entered.
    fn begin(&self) -> Self::Phase
        ensures { result ≡ rules.begun };

    // The operation that a phase asks for.
    fn plan(&self, proposer: Proposer, phase: &Self::Phase) -> Plan
        ensures { result ≡ rules.plan self.now proposer.station proposer.proposal phase.now };

    // Sets the next phase in place, by the content that was read or written, or brings an outcome.
    fn advance(
        &self,
        proposer: Proposer,
        phase: &mut Self::Phase,
        content: u16,
        coin: u8,
    ) -> Option<Outcome>
        ensures outcome { proposer.station < rules.stations self.now → meets phase.old content →
            result ≡ outcome_of (rules.turn self.now proposer.station proposer.proposal phase.old content coin) }
        ensures next { proposer.station < rules.stations self.now → meets phase.old content →
            phase.new ≡ phase_after phase.old (rules.turn self.now proposer.station proposer.proposal phase.old content coin) };
}
