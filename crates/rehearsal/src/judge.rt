ghost use Rattle.std.specs.Prelude.{◌≡◌, length, slice_index};
ghost use Rattle.schedule.specs.Reading.{item_of};
ghost use Rattle.rehearsal.specs.Runs.{new_verdict, item_verdict};
ghost use Rattle.rehearsal.specs.Serving.{GoesOn, Judges, Moves, room_of, verdict_of};

use super::verdict::{Start, Verdict};
use deciding::questions::one_to_sixteen;
use listing::Listing;
use refusal::Refusal;
use schedule::command::Command;
use schedule::pile::Pile;
use schedule::reader::Reader;
use trial::call::Call;

// Reads the next command and asks of it what can be asked before a trial is.
pub(super) fn judge(reader: &mut Reader, listing: &Listing) -> Verdict
    ensures judges { Judges reader.old.schedule.now reader.old.position (room_of listing.now) result reader.new.position }
    ensures same { reader.new.schedule ≡ reader.old.schedule }
    ensures moves { Moves (length reader.old.schedule.now) (room_of listing.now) reader.old.position result reader.new.position }
{
    if reader.is_done() {
        return Verdict::Ends(None);
    }
    if !listing.has_room() {
        return Verdict::Ends(Some(Refusal::ListingFull));
    }
    match reader.next() {
        Ok(Some(command)) => judge_command(command),
        Ok(None) => Verdict::Ends(None),
        Err(refusal) => Verdict::Halts(refusal),
    }
}

fn judge_command(command: Command) -> Verdict
    ensures judges { result ≡ item_verdict (item_of command.entry) }
    ensures goes { GoesOn result }
{
    match command {
        Command::New(operands) => {
            let start = judge_new(
                operand(operands, 0),
                operand(operands, 1),
                operand(operands, 2),
            );
            start.map_or_else(Verdict::Refuses, Verdict::Begins)
        }
        Command::Enter(operands) => Verdict::Asks(Call::Enter {
            station: operand(operands, 0),
            mark: operand(operands, 1),
        }),
        Command::Step(operands) => Verdict::Asks(Call::Step {
            station: operand(operands, 0),
            coin: operand(operands, 1),
        }),
        Command::Stop(operands) => Verdict::Asks(Call::Stop {
            station: operand(operands, 0),
        }),
    }
}

// An operand of a command, which has it.
fn operand(operands: &[u8], at: usize) -> u8
    ensures { result ≡ slice_index operands.now at }
{
    operands.get(at).copied().unwrap_or(0)
}

// Is there such a pile, is the number of stations 1 to 16, is the leader one of them?
fn judge_new(pile: u8, stations: u8, leader: u8) -> Result<Start, Refusal>
    ensures { verdict_of result ≡ new_verdict pile stations leader }
{
    let pile = Pile::try_from(pile)?;
    if !one_to_sixteen(stations) {
        return Err(Refusal::StationCount);
    }
    if leader >= stations {
        return Err(Refusal::LeaderOutOfRange);
    }
    Ok(Start {
        pile,
        stations,
        leader,
    })
}
