use refusal::Refusal;
use schedule::pile::Pile;
use trial::call::Call;

// What an N asks for.
#[derive(Clone, Copy)]
pub struct Start {
    pub pile: Pile,
    pub stations: u8,
    pub leader: u8,
}

// What a command comes to before any trial is asked: two ways on, and three ways to be refused that differ in the line and in
// whether the run goes on, so that no `Result` tells them apart.
#[derive(Clone, Copy)]
pub enum Verdict {
    // The run ends without a line, at the end of the schedule or of the listing.
    Ends(Option<Refusal>),
    // The command cannot be read: its line is the last.
    Halts(Refusal),
    Refuses(Refusal),
    Begins(Start),
    Asks(Call),
}
