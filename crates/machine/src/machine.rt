ghost use Rattle.std.specs.Prelude.{◌≡◌, ℕ, ◌<◌, Bool, false, Some, ◌&&◌, List, length, ◌==◌, nat_lt, slice_index, slice_index_or};
ghost use Rattle.deciding.specs.Calls.{Entering, Stepping};
ghost use Rattle.deciding.specs.Refusable.{granted, refusable, where_made, with_refusal};
ghost use Rattle.machine.specs.declared.status.Status.TheVariants.{Absent};
ghost use Rattle.refusal.specs.declared.Refusal.{Refusal as RefusedBy};
ghost use Rattle.machine.specs.Protocol.{machine_of, running};
ghost use Rattle.machine.specs.Making.{empty_below, refusal_of, made};
ghost use Rattle.machine.specs.Frame.{MachineReached, kept_deciding, machine_reached_prop};
ghost use Rattle.machine.specs.Rows.{Carried, Advances};

use super::protocol::{Proposer, Protocol};
use super::status::{Plan, Status};
use board::Board;
use deciding::object::DecidingObject;
use deciding::questions::one_to_sixteen;
use deciding::record::{Access, Operation, Outcome, Record};
use refusal::Refusal;

// Up to sixteen stations that run one protocol on one board, in fixed memory.
#[derive(Drop)]
pub struct StepMachine<P: Protocol, B: Board> {
    protocol: P,
    board: B,
    refused: Option<Refusal>,
    table: [Status<P::Phase>; 16],
    ghost whole: { length table ≡ 16 },
    // Where its making passed, it began new and was changed by enter and step only.
    ghost reached: { MachineReached P.Protocol.rules P.Protocol.kept protocol (B.Board.contents board) table refused } by { machine_reached_prop P.Protocol.rules P.Protocol.kept protocol (B.Board.contents board) table refused },
}

// Is the register empty, or not there?
fn is_empty<B: Board>(board: &B, register: u16) -> bool
    ensures { result ≡ (slice_index (B.Board.contents board.now) register == 0) }
{
    board.look(register).unwrap_or(0) == 0
}

// Are the first so many registers empty?
fn all_empty<B: Board>(board: &B, registers: u16) -> bool
    ensures { result ≡ empty_below (B.Board.contents board.now) registers }
{
    // With `all` the compiler no longer sees that a new board is empty, and a making takes up to 2.5 times the time.
    for register in 0..registers {
        if !is_empty(board, register) {
            return false;
        }
    }
    true
}

// Asks the questions of a making.
fn ask<P: Protocol, B: Board>(protocol: &P, board: &B) -> Result<(), Refusal>
    ensures { result ≡ granted (refusal_of P.Protocol.rules protocol.now (B.Board.contents board.now)) }
{
    if !one_to_sixteen(protocol.stations()) {
        return Err(Refusal::StationCount);
    }
    protocol.question()?;
    let registers = protocol.registers();
    if registers > board.count() {
        return Err(Refusal::TooFewRegisters);
    }
    if !all_empty(board, registers) {
        return Err(Refusal::RegistersInUse);
    }
    Ok(())
}

// The one register operation of a step.
fn carry_out<B: Board>(board: &mut B, plan: Plan) -> Result<Operation, Refusal>
    ensures { Carried (B.Board.contents board.old) plan result (B.Board.contents board.new) }
{
    let (access, register, content) = match plan {
        Plan::Read(register) => (Access::Read, register, board.read(register)?),
        Plan::Write(register, content) => {
            board.write(register, content)?;
            (Access::Write, register, content)
        }
    };
    Ok(Operation {
        access,
        register,
        content,
    })
}

// Moves a station's row on by one step, which met the content.
fn advance<P: Protocol>(
    row: &mut Status<P::Phase>,
    protocol: &P,
    station: u8,
    content: u16,
    coin: u8,
) -> Option<Outcome>
    ensures { Advances P.Protocol.rules P.Protocol.meets protocol.now station content coin row.old result row.new }
{
    let Status::Running {
        proposal,
        steps,
        phase,
    } = row
    else {
        return None;
    };
    *steps = steps.saturating_add(1);
    let proposer = Proposer {
        station,
        proposal: *proposal,
    };
    let outcome = protocol.advance(proposer, phase, content, coin);
    if let Some(outcome) = outcome {
        *row = Status::Done {
            proposal: *proposal,
            steps: *steps,
            outcome,
        };
    }
    outcome
}

impl<P: Protocol, B: Board> StepMachine<P, B> {
    // A machine on the board as it is. Where a question is answered no, the machine is refused: it has no stations.
    pub fn new(protocol: P, board: B) -> StepMachine<P, B>
        ensures state { ⟦<StepMachine<P, B> as DecidingObject>⟧.state result ≡ made P.Protocol.rules protocol (B.Board.contents board) }
        ensures given { (result.protocol ≡ protocol) × (result.board ≡ board) }
    {
        let refused = ask(&protocol, &board).err();
        StepMachine {
            protocol,
            board,
            refused,
            table: [Status::Absent; 16],
        }
    }

    // Is it a station, of a machine whose making passed?
    fn has(&self, station: u8) -> bool
        ensures { result ≡ where_made (λ u. nat_lt station (P.Protocol.rules.stations u) && nat_lt station 16) false (with_refusal self.now.protocol self.now.refused) }
    {
        match self.refused {
            None => station < self.protocol.stations() && station < 16,
            Some(_) => false,
        }
    }

    fn status(&self, station: u8) -> Status<P::Phase>
        ensures { result ≡ slice_index_or self.now.table station Absent }
    {
        // With `copied` the compiler copies a new table row by row, and a making takes several times the time.
        *self
            .table
            .get(usize::from(station))
            .unwrap_or(&Status::Absent)
    }
}

impl<P: Protocol, B: Board> DecidingObject for StepMachine<P, B> {
    ghost machine = { refusable (machine_of P.Protocol.rules) };

    ghost deciding = { kept_deciding P.Protocol.rules P.Protocol.kept };

    ghost state = { λ x. with_refusal (running x.protocol (B.Board.contents x.board) x.table) x.refused };

    ghost reached = { λ x. x.reached };

    fn stations(&self) -> u8 {
        match self.refused {
            None => self.protocol.stations(),
            Some(_) => 0,
        }
    }

    fn limit(&self) -> u16 {
        match self.refused {
            None => self.protocol.limit(),
            Some(_) => 0,
        }
    }

    fn registers(&self) -> u16 {
        match self.refused {
            None => self.protocol.registers(),
            Some(_) => 0,
        }
    }

    fn ratifying(&self) -> bool {
        match self.refused {
            None => self.protocol.ratifying(),
            Some(_) => false,
        }
    }

    fn refused(&self) -> Option<Refusal> {
        self.refused
    }

    fn record(&self, station: u8) -> Record {
        match self.refused {
            None => self.status(station).into(),
            Some(_) => Record::Away,
        }
    }

    fn enter(&mut self, station: u8, mark: u8) -> Result<(), Refusal>
        ensures calls { Entering (refusable (machine_of P.Protocol.rules))
            (with_refusal (running self.old.protocol (B.Board.contents self.old.board) self.old.table) self.old.refused) station mark result
            (with_refusal (running self.new.protocol (B.Board.contents self.new.board) self.new.table) self.new.refused) }
        ensures given { (r : RefusedBy) → self.old.refused ≡ Some r → (self.new.protocol ≡ self.old.protocol) × (self.new.board ≡ self.old.board) }
    {
        if !self.has(station) {
            return Err(Refusal::NoSuchStation);
        }
        match self.status(station) {
            Status::Absent => {
                self.table[usize::from(station)] = Status::Running {
                    proposal: mark,
                    steps: 0,
                    phase: self.protocol.begin(),
                };
                Ok(())
            }
            _ => Err(Refusal::AlreadyEntered),
        }
    }

    fn step(&mut self, station: u8, coin: u8) -> Result<(Operation, Option<Outcome>), Refusal>
        ensures calls { Stepping (refusable (machine_of P.Protocol.rules))
            (with_refusal (running self.old.protocol (B.Board.contents self.old.board) self.old.table) self.old.refused) station coin result
            (with_refusal (running self.new.protocol (B.Board.contents self.new.board) self.new.table) self.new.refused) }
        ensures given { (r : RefusedBy) → self.old.refused ≡ Some r → (self.new.protocol ≡ self.old.protocol) × (self.new.board ≡ self.old.board) }
    {
        if !self.has(station) {
            return Err(Refusal::NoSuchStation);
        }
        match self.status(station) {
            Status::Absent => Err(Refusal::NotEntered),
            Status::Done { .. } => Err(Refusal::AlreadyAnswered),
            Status::Running {
                proposal,
                phase,
                ..
            } => {
                let plan = self.protocol.plan(Proposer { station, proposal }, &phase);
                // The row is lent before the board, so that what the machine keeps is asked for in each branch, and not before
                // the answer of the board is known.
                let row = &mut self.table[usize::from(station)];
                let operation = carry_out(&mut self.board, plan)?;
                let outcome = advance(row, &self.protocol, station, operation.content, coin);
                Ok((operation, outcome))
            }
        }
    }
}
