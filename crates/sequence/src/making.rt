ghost use Rattle.std.specs.Prelude.{◌≡◌, ℕ, ◌+◌, nat_le};
ghost use Rattle.deciding.specs.Refusable.{granted};
ghost use Rattle.sequence.specs.Making.{sequence_refusal};
ghost use Rattle.sequence.specs.States.{SecondAfter, made_of};

use super::Sequence;
use deciding::object::DecidingObject;
use deciding::questions::{all_away, one_to_sixteen};
use refusal::Refusal;

// The largest limit, and the largest number of registers, that the parts may come to together.
const MOST: u32 = 1000;

fn fits(a: u16, b: u16) -> bool
    ensures { result ≡ nat_le (a + b) 1000 }
{
    u32::from(a) + u32::from(b) <= MOST
}

// Asks the questions of a making.
fn ask<X: DecidingObject, Y: DecidingObject>(first: &X, second: &Y) -> Result<(), Refusal>
    ensures { result ≡ granted (sequence_refusal X.DecidingObject.machine Y.DecidingObject.machine (X.DecidingObject.state first.now) (Y.DecidingObject.state second.now)) }
{
    if !(one_to_sixteen(first.stations()) && one_to_sixteen(second.stations())) {
        return Err(Refusal::StationCount);
    }
    if first.stations() != second.stations() {
        return Err(Refusal::StationsDiffer);
    }
    if !(all_away(first) && all_away(second)) {
        return Err(Refusal::NotAllAway);
    }
    if !(fits(first.limit(), second.limit()) && fits(first.registers(), second.registers())) {
        return Err(Refusal::TooLarge);
    }
    Ok(())
}

impl<X: DecidingObject, Y: DecidingObject> Sequence<X, Y> {
    // The first object, then the second. Where a question is answered no, the sequence is refused: it has no stations.
    pub fn new(first: X, second: Y) -> Sequence<X, Y>
        ensures state { ⟦<Sequence<X, Y> as DecidingObject>⟧.state result ≡ made_of X.DecidingObject Y.DecidingObject first second }
        ensures given { (result.first ≡ first) × (result.second ≡ second) }
        ensures after { SecondAfter X.DecidingObject Y.DecidingObject }
    {
        let refused = ask(&first, &second).err();
        Sequence {
            first,
            second,
            refused,
        }
    }
}
