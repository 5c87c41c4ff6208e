use deciding::record::{Operation, Outcome};
use refusal::Refusal;

// What can be asked of a trial.
#[derive(Clone, Copy, PartialEq, Eq, Debug)]
pub enum Call {
    Enter { station: u8, mark: u8 },
    Step { station: u8, coin: u8 },
    Stop { station: u8 },
}

// What a call brings about that is not refused.
#[derive(Clone, Copy, PartialEq, Eq, Debug)]
pub enum Effect {
    Entered,
    Stepped(Operation, Option<Outcome>),
    Stopped,
}

pub type Answer = Result<Effect, Refusal>;
