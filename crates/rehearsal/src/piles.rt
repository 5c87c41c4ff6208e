ghost use Rattle.std.specs.Prelude.{◌≡◌};
ghost use Rattle.machine.specs.Making.{made};
ghost use Rattle.rehearsal.specs.Piles.{cells};

use board::cell::CellBoard;
use deciding::object::DecidingObject;
use machine::machine::StepMachine;
use machine::protocol::Protocol;

// A machine on a cell board of its own.
pub(super) fn on_cells<P: Protocol>(protocol: P) -> StepMachine<P, CellBoard>
    ensures { ⟦<StepMachine<P, CellBoard> as DecidingObject>⟧.state result ≡ made P.Protocol.rules protocol cells }
{
    StepMachine::new(protocol, CellBoard::new())
}
