ghost use Rattle.std.specs.Prelude.{◌≡◌, ℕ};
ghost use Rattle.deciding.specs.Calls.{Entering, Stepping};
ghost use Rattle.deciding.specs.Deciding.{Deciding};
ghost use Rattle.deciding.specs.Machine.{Machine};

use super::record::{Operation, Outcome, Record};
use refusal::Refusal;

// An object by which up to sixteen stations agree on a mark: each enters with a proposal, takes steps of one
// register operation each, and comes to an outcome.
//
// What it does is said by an abstract machine, and that this keeps the laws of deciding objects by `deciding`, without which there
// is no implementation. `Reached` says of a state that an object comes to it from its making by enter and step only, and the law
// `reached` that every value of the type is in such a state.
pub trait DecidingObject {
    ghost machine: { Machine };

    ghost deciding: { Deciding machine };

    ghost state: { Self → machine.State };

    // How many stations there are: 1 to 16, or 0 where the making was refused.
    fn stations(&self) -> u8
        ensures { result ≡ machine.stations (state self.now) };

    // How many steps a station takes at the most.
    fn limit(&self) -> u16
        ensures { result ≡ machine.limit (state self.now) };

    fn registers(&self) -> u16
        ensures { result ≡ machine.registers (state self.now) };

    // Whether it commits when all proposals are equal; one that is not ratifying never commits.
    fn ratifying(&self) -> bool
        ensures { result ≡ machine.ratifying (state self.now) };

    // Why its making was refused, if it was: a value that is asked for, as the limit is.
    fn refused(&self) -> Option<Refusal>
        ensures { result ≡ machine.refused (state self.now) };

    // The record of a station; that of a number that is no station is away.
    fn record(&self, station: u8) -> Record
        ensures { result ≡ machine.record_of (state self.now) station };

    // The station proposes the mark. No register operation.
    fn enter(&mut self, station: u8, mark: u8) -> Result<(), Refusal>
        ensures { Entering machine (state self.old) station mark result (state self.new) };

    // The station makes its next register operation, with a coin of 0 to 255 thrown for it.
    fn step(&mut self, station: u8, coin: u8) -> Result<(Operation, Option<Outcome>), Refusal>
        ensures { Stepping machine (state self.old) station coin result (state self.new) };

    // Every value began new and was changed by enter and step only.
    ghost reached: { (x : Self) → deciding.Reached (state x) };
}
