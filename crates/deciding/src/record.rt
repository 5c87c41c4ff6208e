ghost use Rattle.std.specs.Prelude.{◌≡◌};
ghost use Rattle.deciding.specs.Away.{is_away};
ghost use Rattle.deciding.specs.Laws.{mark};

// A mark is a whole number of millimetres from 0 to 255: where a bag's good ice begins.
// What a station comes out with: a mark that it takes over, or one that is settled for all.
#[derive(Clone, Copy, PartialEq, Eq, Debug)]
pub enum Outcome {
    Adopt(u8),
    Commit(u8),
}

// What is known of one station, an instrument on the melt line: the mark that it proposed,
// the steps that it took, and its outcome.
#[derive(Clone, Copy, PartialEq, Eq, Debug)]
pub enum Record {
    Away,
    UnderWay {
        proposal: u8,
        steps: u16,
    },
    Answered {
        proposal: u8,
        steps: u16,
        outcome: Outcome,
    },
}

impl Outcome {
    pub fn mark(self) -> u8
        ensures { result ≡ mark self }
    {
        match self {
            Outcome::Adopt(mark) | Outcome::Commit(mark) => mark,
        }
    }
}

#[derive(Clone, Copy, PartialEq, Eq, Debug)]
pub enum Access {
    Read,
    Write,
}

// One register operation: what was read there, or what was written.
#[derive(Clone, Copy, PartialEq, Eq, Debug)]
pub struct Operation {
    pub access: Access,
    pub register: u16,
    pub content: u16,
}

impl Record {
    pub fn is_away(self) -> bool
        ensures { result ≡ is_away self }
    {
        matches!(self, Record::Away)
    }
}
