#![tactic(auto)]

pub mod call;
mod calls;
mod making;
pub mod rehearsal;

use refusal::Refusal;

// A trial is what a run puts its calls to: a pile, which is any deciding object with its boards, and for each station
// whether it was stopped. A stopped station enters and steps no more; its record and its registers remain.
#[derive(Drop)]
pub struct Trial<D> {
    pile: D,
    stopped: [bool; 16],
    refused: Option<Refusal>,
}
