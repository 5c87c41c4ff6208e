ghost use Rattle.std.specs.Prelude.{◌≡◌, ◌≤◌, ◌++◌, length, drop};
ghost use Rattle.refusal.specs.Numbers.{number_or_zero};
ghost use Rattle.rehearsal.specs.Lines.{listed};
ghost use Rattle.rehearsal.specs.Agreement.{Agreement};
ghost use Rattle.rehearsal.specs.Listings.{LawfulRun};
ghost use Rattle.rehearsal.specs.Piles.{PilesMade};
ghost use Rattle.rehearsal.specs.Runs.{run_of};

use super::serving::finish;
use listing::Listing;
use refusal::Refusal;
use schedule::reader::Reader;

// The longest schedule that a run takes.
pub const LONGEST: usize = 4096;

// What a run answers: how many bytes of the schedule hold the commands that were done or refused before the one that
// ended it, how many bytes of the listing were written, and what ended it, if not the end of the schedule. The two numbers are told
// of every run, so that this is no `Result`.
#[derive(Clone, Copy)]
pub struct Ran {
    pub consumed: usize,
    pub written: usize,
    pub ended: Option<Refusal>,
}

// Carries out the schedule, and lists every command with what came of it.
//
// Its meaning is the definition `run_of`: the lines, the bytes consumed and the ending are those of the abstract
// machines, and the listing holds the text of the lines and after it what it held before. `made` says that every N
// which passes its questions has its trial, and `lawful` is the whole promise about runs: whatever calls are put to a
// trial, of the six piles and of whatever can be made of the machines, they obey the law. `tells` says the same of the
// lines of this run: from the line of one pile to that of the next they tell of one trial, whose calls obey the law.
pub fn run(schedule: &[u8], listing: &mut [u8]) -> Ran
    ensures bytes { listing.new ≡ listed (run_of schedule.now (length listing.old)).lines
        ++ drop (length (listed (run_of schedule.now (length listing.old)).lines)) listing.old }
    ensures consumed { result.consumed ≡ (run_of schedule.now (length listing.old)).consumed }
    ensures written { result.written ≡ length (listed (run_of schedule.now (length listing.old)).lines) }
    ensures ended { result.ended ≡ (run_of schedule.now (length listing.old)).ended }
    ensures bounds { (result.consumed ≤ length schedule.now) × (result.written ≤ length listing.new) × (number_or_zero result.ended ≤ 4) }
    ensures made { PilesMade }
    ensures lawful { Agreement }
    ensures tells { LawfulRun schedule.now (run_of schedule.now (length listing.old)) }
{
    if schedule.len() > LONGEST {
        return Ran {
            consumed: 0,
            written: 0,
            ended: Some(Refusal::ScheduleTooLong),
        };
    }
    let mut reader = Reader::new(schedule);
    let mut listing = Listing::new(listing, 0);
    let ended = finish(&mut reader, &mut listing);
    Ran {
        consumed: reader.position(),
        written: listing.end(),
        ended,
    }
}
