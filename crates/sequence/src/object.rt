ghost use Rattle.std.specs.Prelude.{◌≡◌, Some};
ghost use Rattle.refusal.specs.declared.Refusal.{Refusal as RefusedBy};
ghost use Rattle.deciding.specs.Calls.{Entering, Stepping};
ghost use Rattle.sequence.specs.States.{both};

use super::Sequence;
use super::steps::{goes_on, join, step_first, step_second};
use deciding::object::DecidingObject;
use deciding::record::{Operation, Outcome, Record};
use refusal::Refusal;

impl<X: DecidingObject, Y: DecidingObject> DecidingObject for Sequence<X, Y> {
    ghost machine = { (both X.DecidingObject Y.DecidingObject).machine };

    ghost deciding = { (both X.DecidingObject Y.DecidingObject).deciding };

    ghost state = { (both X.DecidingObject Y.DecidingObject).state };

    ghost reached = { λ x. x.reached };

    fn stations(&self) -> u8 {
        match self.refused {
            None => self.first.stations(),
            Some(_) => 0,
        }
    }

    fn limit(&self) -> u16 {
        match self.refused {
            None => self.first.limit().saturating_add(self.second.limit()),
            Some(_) => 0,
        }
    }

    fn registers(&self) -> u16 {
        match self.refused {
            None => self
                .first
                .registers()
                .saturating_add(self.second.registers()),
            Some(_) => 0,
        }
    }

    fn ratifying(&self) -> bool {
        match self.refused {
            None => self.first.ratifying() || self.second.ratifying(),
            Some(_) => false,
        }
    }

    fn refused(&self) -> Option<Refusal> {
        self.refused
    }

    fn record(&self, station: u8) -> Record {
        match self.refused {
            None => join(self.first.record(station), self.second.record(station)),
            Some(_) => Record::Away,
        }
    }

    fn enter(&mut self, station: u8, mark: u8) -> Result<(), Refusal>
        ensures calls { Entering (both X.DecidingObject Y.DecidingObject).machine
            ((both X.DecidingObject Y.DecidingObject).state self.old) station mark result
            ((both X.DecidingObject Y.DecidingObject).state self.new) }
        ensures given { (r : RefusedBy) → self.old.refused ≡ Some r → (self.new.first ≡ self.old.first) × (self.new.second ≡ self.old.second) }
    {
        match self.refused {
            None => self.first.enter(station, mark),
            Some(_) => Err(Refusal::NoSuchStation),
        }
    }

    fn step(&mut self, station: u8, coin: u8) -> Result<(Operation, Option<Outcome>), Refusal>
        ensures calls { Stepping (both X.DecidingObject Y.DecidingObject).machine
            ((both X.DecidingObject Y.DecidingObject).state self.old) station coin result
            ((both X.DecidingObject Y.DecidingObject).state self.new) }
        ensures given { (r : RefusedBy) → self.old.refused ≡ Some r → (self.new.first ≡ self.old.first) × (self.new.second ≡ self.old.second) }
    {
        match self.refused {
            None if goes_on(self.first.record(station)) => {
                step_second(&self.first, &mut self.second, station, coin)
            }
            None => step_first(&mut self.first, &mut self.second, station, coin),
            Some(_) => Err(Refusal::NoSuchStation),
        }
    }
}
