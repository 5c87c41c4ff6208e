use deciding::record::{Operation, Outcome};
use refusal::Refusal;
use schedule::pile::Pile;

// What a line of a listing tells of one command of the schedule: what it brought about, or why it was refused.
#[derive(Clone, Copy)]
pub enum Line {
    // A new pile was made: how many stations it has, how many steps each of them can need, and how many registers.
    Pile {
        pile: Pile,
        stations: u8,
        limit: u16,
        registers: u16,
    },
    Entered {
        station: u8,
        mark: u8,
    },
    // A step was one register operation, and brought an outcome or none.
    Stepped {
        station: u8,
        operation: Operation,
        outcome: Option<Outcome>,
    },
    Stopped {
        station: u8,
    },
    Refused(Refusal),
}
