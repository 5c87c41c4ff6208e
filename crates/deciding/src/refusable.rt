ghost use Rattle.std.specs.Prelude.{◌≡◌};
ghost use Rattle.deciding.specs.Calls.{Entering, Stepping};
ghost use Rattle.deciding.specs.Held.{StaysRefused, all_reached, held, held_deciding, state_made};

use super::object::DecidingObject;
use super::record::{Operation, Outcome, Record};
use refusal::Refusal;

// What a making may leave that asks questions: the object, or the first question that was answered no together with what was
// given to the making, G, so that a making asks of nobody that it can be dropped. A refused one has no stations, and nothing to
// show. Machines, sequences and trials keep a refusal themselves: one of these around each would have its parts twice.
#[derive(Drop)]
pub struct Refusable<T, G> {
    made: Result<T, (Refusal, G)>,
}

impl<T, G> Refusable<T, G> {
    pub fn new(made: Result<T, (Refusal, G)>) -> Refusable<T, G>
        ensures { result.made ≡ made }
    {
        Refusable { made }
    }
}

impl<T: DecidingObject, G> DecidingObject for Refusable<T, G> {
    ghost machine = { held T.machine };

    ghost deciding = { held_deciding T.machine T.deciding };

    ghost state = { λ x. state_made T.state x.made };

    ghost reached = { λ x. all_reached T.machine T.deciding T.state T.reached x.made };

    fn stations(&self) -> u8 {
        self.made.as_ref().map_or(0, |object| object.stations())
    }

    fn limit(&self) -> u16 {
        self.made.as_ref().map_or(0, |object| object.limit())
    }

    fn registers(&self) -> u16 {
        self.made.as_ref().map_or(0, |object| object.registers())
    }

    fn ratifying(&self) -> bool {
        self.made.as_ref().is_ok_and(|object| object.ratifying())
    }

    fn refused(&self) -> Option<Refusal> {
        match &self.made {
            Ok(object) => object.refused(),
            Err((refusal, _)) => Some(*refusal),
        }
    }

    fn record(&self, station: u8) -> Record {
        self.made
            .as_ref()
            .map_or(Record::Away, |object| object.record(station))
    }

    // What is changed through `as_mut` is lost to the proof, so `enter` and `step` take it by a `match`.
    fn enter(&mut self, station: u8, mark: u8) -> Result<(), Refusal>
        ensures calls { Entering (held T.machine) (state_made T.state self.old.made) station mark result (state_made T.state self.new.made) }
        ensures given { StaysRefused self.old.made self.new.made }
    {
        match &mut self.made {
            Ok(object) => object.enter(station, mark),
            Err(_) => Err(Refusal::NoSuchStation),
        }
    }

    fn step(&mut self, station: u8, coin: u8) -> Result<(Operation, Option<Outcome>), Refusal>
        ensures calls { Stepping (held T.machine) (state_made T.state self.old.made) station coin result (state_made T.state self.new.made) }
        ensures given { StaysRefused self.old.made self.new.made }
    {
        match &mut self.made {
            Ok(object) => object.step(station, coin),
            Err(_) => Err(Refusal::NoSuchStation),
        }
    }
}
