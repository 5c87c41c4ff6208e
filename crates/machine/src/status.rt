ghost use Rattle.std.specs.Prelude.{◌≡◌};
ghost use Rattle.machine.specs.Protocol.{shown};

use deciding::record::{Outcome, Record};

// A station's row in the table of a machine: its proposal and its steps, and while it is under way
// its phase, that is the place in its protocol with what it has read so far. `Record` is not this enum without a phase: then
// everybody who reads a record would meet a phase of type `()`.
#[derive(Clone, Copy)]
pub enum Status<P> {
    Absent,
    Running {
        proposal: u8,
        steps: u16,
        phase: P,
    },
    Done {
        proposal: u8,
        steps: u16,
        outcome: Outcome,
    },
}

// What a row shows of its station: where the station is in its protocol remains the machine's own.
impl<P: Drop> From<Status<P>> for Record {
    ghost from_gives = { λ s r. r ≡ shown s };

    fn from(status: Status<P>) -> Record {
        match status {
            Status::Absent => Record::Away,
            Status::Running {
                proposal,
                steps,
                ..
            } => Record::UnderWay { proposal, steps },
            Status::Done {
                proposal,
                steps,
                outcome,
            } => Record::Answered {
                proposal,
                steps,
                outcome,
            },
        }
    }
}

// The one register operation that a phase asks for: a read of a register, or a write of a content to one.
#[derive(Clone, Copy)]
pub enum Plan {
    Read(u16),
    Write(u16, u16),
}
