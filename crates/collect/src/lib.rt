#![tactic(auto)]

ghost use Rattle.std.specs.Prelude.{◌≡◌, ℕ, ◌≤◌, Bool};
ghost use Rattle.collect.specs.Ratifier.{collect, collect_meets, fits as fitting, vote as voting, found_in, verdict as judged};
ghost use Rattle.collect.specs.Kept.{collect_kept};

use deciding::record::Outcome;
use machine::marks::{content_for, mark_of};
use machine::protocol::{Proposer, Protocol};
use machine::status::Plan;
use refusal::Refusal;

// The collect ratifier of so many stations. Register s is for the mark of station s, register n + s for its vote.
#[derive(Clone, Copy)]
pub struct Collect {
    pub stations: u8,
}

// Where a station is in its four rounds.
#[derive(Clone, Copy)]
pub enum CollectPhase {
    WriteMark,
    // `agree` while all marks read were its own.
    ReadMarks {
        next: u8,
        agree: bool,
    },
    WriteVote {
        agree: bool,
    },
    // `clean` while all votes read were full ones for its own mark; `found` is the mark of the first full vote.
    ReadVotes {
        next: u8,
        clean: bool,
        found: Option<u8>,
    },
}

const FIRST_MARK: CollectPhase = CollectPhase::ReadMarks {
    next: 0,
    agree: true,
};

const FIRST_VOTE: CollectPhase = CollectPhase::ReadVotes {
    next: 0,
    clean: true,
    found: None,
};

// Is the content empty, or the one expected?
fn fits(expected: u16, content: u16) -> bool
    ensures { result ≡ fitting expected content }
{
    content == 0 || content == expected
}

// A vote for the mark: full where all agreed. Each of the two contents is its own, and not made from that of a mark.
fn vote(agree: bool, mark: u8) -> u16
    ensures { result ≡ voting agree mark }
{
    if agree {
        2 * u16::from(mark) + 2
    } else {
        2 * u16::from(mark) + 1
    }
}

// The mark of the first full vote, after a further content was read.
fn first_full(found: Option<u8>, content: u16) -> Option<u8>
    ensures { content ≤ 512 → result ≡ found_in found content }
{
    let is_full = content != 0 && content % 2 == 0;
    found.or_else(|| is_full.then(|| mark_of(content / 2)))
}

fn verdict(mark: u8, clean: bool, found: Option<u8>) -> Outcome
    ensures { result ≡ judged mark clean found }
{
    if clean {
        Outcome::Commit(mark)
    } else {
        Outcome::Adopt(found.unwrap_or(mark))
    }
}

impl Protocol for Collect {
    type Phase = CollectPhase;

    ghost rules = { collect };

    ghost meets = { collect_meets };

    ghost kept = { collect_kept };

    fn stations(&self) -> u8 {
        self.stations
    }

    fn limit(&self) -> u16 {
        2 * u16::from(self.stations) + 2
    }

    fn registers(&self) -> u16 {
        u16::from(self.stations) * 2
    }

    fn ratifying(&self) -> bool {
        true
    }

    fn question(&self) -> Result<(), Refusal> {
        Ok(()) // it asks nothing of its own
    }

    fn begin(&self) -> CollectPhase {
        CollectPhase::WriteMark // its own mark stands before it reads another
    }

    fn plan(&self, proposer: Proposer, phase: &CollectPhase) -> Plan {
        let votes = u16::from(self.stations);
        let station = u16::from(proposer.station);
        match *phase {
            CollectPhase::WriteMark => Plan::Write(station, content_for(proposer.proposal)),
            CollectPhase::ReadMarks { next, .. } => Plan::Read(u16::from(next)),
            CollectPhase::WriteVote { agree } => Plan::Write(
                votes + station,
                vote(agree, proposer.proposal),
            ),
            CollectPhase::ReadVotes { next, .. } => Plan::Read(votes + u16::from(next)),
        }
    }

    fn advance(
        &self,
        proposer: Proposer,
        phase: &mut CollectPhase,
        content: u16,
        _coin: u8,
    ) -> Option<Outcome> {
        match *phase {
            CollectPhase::WriteMark => *phase = FIRST_MARK,
            CollectPhase::ReadMarks { next, agree } => {
                let agree = agree && fits(content_for(proposer.proposal), content);
                let next = next.saturating_add(1);
                *phase = if next < self.stations {
                    CollectPhase::ReadMarks { next, agree }
                } else {
                    CollectPhase::WriteVote { agree }
                };
            }
            CollectPhase::WriteVote { .. } => *phase = FIRST_VOTE,
            CollectPhase::ReadVotes { next, clean, found } => {
                let clean = clean && fits(vote(true, proposer.proposal), content);
                let found = first_full(found, content);
                let next = next.saturating_add(1);
                if next >= self.stations {
                    return Some(verdict(proposer.proposal, clean, found));
                }
                *phase = CollectPhase::ReadVotes { next, clean, found };
            }
        }
        None
    }
}
