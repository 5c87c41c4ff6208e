// A command of a schedule, by its letter. Each case borrows its operands, one byte each, as the part of the schedule in which they
// stand: a command is shown by that part.
#[derive(Clone, Copy)]
pub enum Command<'a> {
    // N: a new pile, by its number; how many stations; which of them leads.
    New(&'a [u8]),
    // E: a station enters with a mark.
    Enter(&'a [u8]),
    // S: a station takes a step with a coin.
    Step(&'a [u8]),
    // L: a station is stopped.
    Stop(&'a [u8]),
}
