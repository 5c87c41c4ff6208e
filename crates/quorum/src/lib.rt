#![tactic(auto)]

ghost use Rattle.std.specs.Prelude.{◌≡◌};
ghost use Rattle.quorum.specs.Ratifier.{quorum as ratifier, quorum_meets};
ghost use Rattle.quorum.specs.Kept.{quorum_kept};
ghost use Rattle.quorum.specs.Examples.{limits, Examples};

use deciding::record::Outcome;
use machine::marks::{content_for, mark_of};
use machine::protocol::{Proposer, Protocol};
use machine::status::Plan;
use refusal::Refusal;
use std::marker::PhantomData;
use tables::bit_pairs::BitPairs;
use tables::half_sets::HalfSets;
use tables::table::QuorumTable;

// The quorum ratifier of so many stations, over a quorum table. A station writes its mark's write set to registers of the table's
// pool, registers 0 to k − 1. Register k is the preference register.
#[derive_where(Clone, Copy)]
pub struct Quorum<Q> {
    pub stations: u8,
    pub table: PhantomData<Q>,
}

impl<Q> Quorum<Q> {
    pub fn new(stations: u8) -> Self
        ensures { result.stations ≡ stations }
    {
        Quorum {
            stations,
            table: PhantomData,
        }
    }
}

// Where a station is. An index is how many registers of the set it has written or read.
#[derive(Clone, Copy)]
pub enum QuorumPhase {
    WriteSet { index: u16 },
    ReadPreference,
    // The preference register was empty, so that the station prefers its own mark.
    WritePreference,
    // Of the preference: all its registers that were read are empty.
    ReadSet { preference: u8, index: u16 },
}

impl<Q: QuorumTable> Protocol for Quorum<Q> {
    type Phase = QuorumPhase;

    ghost rules = { ratifier Q Q.QuorumTable.table };

    ghost meets = { quorum_meets };

    ghost kept = { quorum_kept Q Q.QuorumTable.table Q.QuorumTable.lawful };

    fn stations(&self) -> u8 {
        self.stations
    }

    fn limit(&self) -> u16 {
        Q::WRITES + Q::READS + 2
    }

    fn registers(&self) -> u16 {
        Q::POOL + 1
    }

    fn ratifying(&self) -> bool {
        true
    }

    fn question(&self) -> Result<(), Refusal> {
        Ok(()) // it asks nothing of its own
    }

    fn begin(&self) -> QuorumPhase {
        QuorumPhase::WriteSet { index: 0 }
    }

    fn plan(&self, proposer: Proposer, phase: &QuorumPhase) -> Plan {
        let proposal = proposer.proposal;
        match *phase {
            QuorumPhase::WriteSet { index } => Plan::Write(Q::write_register(proposal, index), 1),
            QuorumPhase::ReadPreference => Plan::Read(Q::POOL),
            QuorumPhase::WritePreference => Plan::Write(Q::POOL, content_for(proposal)),
            QuorumPhase::ReadSet { preference, index } => {
                Plan::Read(Q::read_register(preference, index))
            }
        }
    }

    fn advance(
        &self,
        proposer: Proposer,
        phase: &mut QuorumPhase,
        content: u16,
        _coin: u8,
    ) -> Option<Outcome> {
        *phase = match *phase {
            QuorumPhase::WriteSet { index } => {
                let index = index.saturating_add(1);
                if index < Q::WRITES {
                    QuorumPhase::WriteSet { index }
                } else {
                    QuorumPhase::ReadPreference
                }
            }
            QuorumPhase::ReadPreference if content == 0 => QuorumPhase::WritePreference,
            QuorumPhase::ReadPreference => QuorumPhase::ReadSet {
                preference: mark_of(content),
                index: 0,
            },
            QuorumPhase::WritePreference => QuorumPhase::ReadSet {
                preference: proposer.proposal,
                index: 0,
            },
            QuorumPhase::ReadSet { preference, .. } if content != 0 => {
                return Some(Outcome::Adopt(preference));
            }
            QuorumPhase::ReadSet { preference, index } => {
                let index = index.saturating_add(1);
                if index >= Q::READS {
                    return Some(Outcome::Commit(preference));
                }
                QuorumPhase::ReadSet { preference, index }
            }
        };
        None
    }
}

// The limits over bit pairs and over half sets. The contract also has the worked examples, as theorems about the definitions.
pub fn examples() -> [u16; 2]
    ensures limits { result ≡ limits }
    ensures examples { Examples }
{
    [
        Quorum::<BitPairs>::new(2).limit(),
        Quorum::<HalfSets>::new(2).limit(),
    ]
}
