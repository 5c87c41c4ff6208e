#![tactic(auto)]

mod making;
pub mod object;
mod steps;

ghost use Rattle.sequence.specs.Parts.{SequenceReached, sequence_reached_prop};

use deciding::object::DecidingObject;
use refusal::Refusal;

// Two deciding objects of any two kinds, one after the other: who adopts a mark in the first enters the second with it,
// and who commits in the first is done.
#[derive(Drop)]
pub struct Sequence<X: DecidingObject, Y: DecidingObject> {
    first: X,
    second: Y,
    refused: Option<Refusal>,
    // Where its making passed, it began new and was changed by enter and step only.
    ghost reached: { SequenceReached X.DecidingObject Y.DecidingObject first second refused } by { sequence_reached_prop X.DecidingObject Y.DecidingObject first second refused },
}
