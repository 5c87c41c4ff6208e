ghost use Rattle.std.specs.Prelude.{◌≡◌, ◌≤◌};
ghost use Rattle.rehearsal.specs.Lines.{answer_line};
ghost use Rattle.rehearsal.specs.Responders.{in_state, no_trial};
ghost use Rattle.rehearsal.specs.Serving.{Arrives, HasEnded, Stays, Waits, finishes, renews, room_of, run_at, starts};

use super::judge::judge;
use super::piles::on_cells;
use super::responder::{NoTrial, Responder};
use super::verdict::{Start, Verdict};
use board::card::CardBoard;
use collect::Collect;
use conciliators::coin::Coin;
use conciliators::leader::Leader;
use deciding::object::DecidingObject;
use listing::Listing;
use listing::line::Line;
use machine::machine::StepMachine;
use quorum::Quorum;
use refusal::Refusal;
use schedule::pile::Pile;
use schedule::reader::Reader;
use sequence::Sequence;
use std::ops::ControlFlow;
use tables::bit_pairs::BitPairs;
use tables::half_sets::HalfSets;
use trial::Trial;
use trial::call::{Answer, Call, Effect};

// Where serving leaves off: the run ends, or an N asks for a pile.
type Served = ControlFlow<Option<Refusal>, Start>;

// The functions of a run take its reader and its listing side by side. As two fields of one struct they would be lent through
// it, and what is written two structs deep is lost to a proof when the structs end. `renew` and `begin` need room for the line of
// the pile, for which `judge` asked; a listing that is known to have room would be such a struct.

// Carries out the schedule, and answers what ended it, if not its end.
pub(super) fn finish(reader: &mut Reader, listing: &mut Listing) -> Option<Refusal>
    ensures ends { HasEnded (finishes (run_at reader.old listing.old) no_trial) result (run_at reader.new listing.new) }
    ensures stays { Stays (run_at reader.old listing.old) (run_at reader.new listing.new) }
{
    let mut served = serve(&mut NoTrial {}, reader, listing);
    loop {
        match served {
            ControlFlow::Break(ended) => return ended,
            ControlFlow::Continue(start) => served = renew(start, reader, listing),
        }
    }
}

// Makes the pile that an N asks for, and serves it.
fn renew(start: Start, reader: &mut Reader, listing: &mut Listing) -> Served
    requires { 48 ≤ room_of listing.old }
    ensures arrives { Arrives (renews (run_at reader.old listing.old) start) result (run_at reader.new listing.new) }
    ensures stays { Stays (run_at reader.old listing.old) (run_at reader.new listing.new) }
    ensures waits { Waits (run_at reader.old listing.old) result (run_at reader.new listing.new) }
{
    let Start {
        pile,
        stations,
        leader,
    } = start;
    let collect = Collect { stations };
    let coin = Coin { stations };
    let leader = Leader { stations, leader };
    let bit_pairs = Quorum::<BitPairs>::new(stations);
    let half_sets = Quorum::<HalfSets>::new(stations);
    match pile {
        Pile::Collect => begin(pile, on_cells(collect), reader, listing),
        Pile::Quorum => {
            // One register more than the pool of the bit pairs has, two bytes each.
            let mut card = [0u8; 34];
            let object = StepMachine::new(bit_pairs, CardBoard::new(&mut card));
            begin(pile, object, reader, listing)
        }
        Pile::CoinCollect => {
            let object = Sequence::new(on_cells(coin), on_cells(collect));
            begin(pile, object, reader, listing)
        }
        Pile::LeaderQuorum => {
            let object = Sequence::new(on_cells(leader), on_cells(half_sets));
            begin(pile, object, reader, listing)
        }
        Pile::CollectCoinQuorum => {
            let back = Sequence::new(on_cells(coin), on_cells(bit_pairs));
            let object = Sequence::new(on_cells(collect), back);
            begin(pile, object, reader, listing)
        }
        Pile::QuorumLeaderCoinCollect => {
            let front = Sequence::new(on_cells(half_sets), on_cells(leader));
            let back = Sequence::new(on_cells(coin), on_cells(collect));
            let object = Sequence::new(front, back);
            begin(pile, object, reader, listing)
        }
    }
}

// A new pile: its line, and then its trial.
fn begin<D: DecidingObject + Drop>(
    pile: Pile,
    object: D,
    reader: &mut Reader,
    listing: &mut Listing,
) -> Served
    requires { 48 ≤ room_of listing.old }
    ensures arrives { Arrives (starts (run_at reader.old listing.old) pile D.DecidingObject.machine (D.DecidingObject.state object)) result (run_at reader.new listing.new) }
    ensures stays { Stays (run_at reader.old listing.old) (run_at reader.new listing.new) }
    ensures waits { Waits (run_at reader.old listing.old) result (run_at reader.new listing.new) }
{
    let mut trial = Trial::new(object);
    let line = Line::Pile {
        pile,
        stations: trial.stations(),
        limit: trial.limit(),
        registers: trial.registers(),
    };
    listing.put(line).unwrap();
    serve(&mut trial, reader, listing)
}

// Carries out commands until one begins a pile or the run ends.
fn serve<R: Responder>(responder: &mut R, reader: &mut Reader, listing: &mut Listing) -> Served
    ensures arrives { Arrives (finishes (run_at reader.old listing.old) (in_state R.Responder.answers (R.Responder.state responder.old))) result (run_at reader.new listing.new) }
    ensures stays { Stays (run_at reader.old listing.old) (run_at reader.new listing.new) }
    ensures waits { Waits (run_at reader.old listing.old) result (run_at reader.new listing.new) }
{
    loop {
        match judge(reader, listing) {
            Verdict::Ends(refusal) => return ControlFlow::Break(refusal),
            Verdict::Halts(refusal) => {
                listing.put(Line::Refused(refusal)).unwrap();
                return ControlFlow::Break(Some(refusal));
            }
            Verdict::Refuses(refusal) => listing.put(Line::Refused(refusal)).unwrap(),
            Verdict::Begins(start) => return ControlFlow::Continue(start),
            Verdict::Asks(call) => {
                let answer = responder.respond(call);
                listing.put(line_of(call, answer)).unwrap();
            }
        }
    }
}

// The line of a call and its answer.
fn line_of(call: Call, answer: Answer) -> Line
    ensures { result ≡ answer_line call answer }
{
    let (station, mark) = match call {
        Call::Enter { station, mark } => (station, mark),
        Call::Step { station, .. } => (station, 0),
        Call::Stop { station } => (station, 0),
    };
    match answer {
        Err(refusal) => Line::Refused(refusal),
        Ok(Effect::Entered) => Line::Entered { station, mark },
        Ok(Effect::Stepped(operation, outcome)) => Line::Stepped {
            station,
            operation,
            outcome,
        },
        Ok(Effect::Stopped) => Line::Stopped { station },
    }
}
