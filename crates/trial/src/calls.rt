ghost use Rattle.std.specs.Prelude.{◌≡◌, ℕ, ◌<◌, true, false, if◌then◌else◌, nat_eq, slice_index_or};
ghost use Rattle.trial.specs.declared.call.Call.TheVariants.{Enter, Step, Stop};
ghost use Rattle.deciding.specs.Refusable.{granted};
ghost use Rattle.trial.specs.Perform.{admission, entered_as, stepped_as, stopped_as};
ghost use Rattle.trial.specs.Trials.{Does, tried, whole};

use super::Trial;
use super::call::{Answer, Call, Effect};
use deciding::object::DecidingObject;
use deciding::record::{Operation, Outcome};
use refusal::Refusal;

impl<D: DecidingObject> Trial<D> {
    fn is_stopped(&self, station: u8) -> bool
        ensures { result ≡ slice_index_or self.now.stopped station false }
    {
        let stopped = self.stopped.get(usize::from(station));
        stopped.copied().unwrap_or(false)
    }

    fn set_stopped(&mut self, station: u8)
        ensures marks { station < 16 → (t : ℕ) → slice_index_or self.new.stopped t false ≡ (if nat_eq t station then true else slice_index_or self.old.stopped t false) }
        ensures rest { (self.new.pile ≡ self.old.pile) × (self.new.refused ≡ self.old.refused) }
    {
        // What is written through `get_mut` to an array is lost to the proof.
        if station < 16 {
            self.stopped[usize::from(station)] = true;
        }
    }

    // Is there such a station, and is it not stopped?
    fn admit(&self, station: u8) -> Result<(), Refusal>
        ensures { result ≡ granted (admission (whole D.DecidingObject) (tried D.DecidingObject self.now) station) }
    {
        if station >= self.stations() {
            return Err(Refusal::NoSuchStation);
        }
        if self.is_stopped(station) {
            return Err(Refusal::Stopped);
        }
        Ok(())
    }

    // The station proposes the mark.
    pub fn enter(&mut self, station: u8, mark: u8) -> Result<(), Refusal>
        ensures { Does D.DecidingObject self.old (Enter station mark) (entered_as result) self.new }
    {
        self.admit(station)?;
        self.pile.enter(station, mark)
    }

    // The station makes its next register operation.
    pub fn step(&mut self, station: u8, coin: u8) -> Result<(Operation, Option<Outcome>), Refusal>
        ensures { Does D.DecidingObject self.old (Step station coin) (stepped_as result) self.new }
    {
        self.admit(station)?;
        self.pile.step(station, coin)
    }

    // The station is stopped, whether it has entered, has answered or neither.
    pub fn stop(&mut self, station: u8) -> Result<(), Refusal>
        ensures { Does D.DecidingObject self.old (Stop station) (stopped_as result) self.new }
    {
        self.admit(station)?;
        self.set_stopped(station);
        Ok(())
    }

    // Any of the three.
    pub fn perform(&mut self, call: Call) -> Answer
        ensures { Does D.DecidingObject self.old call result self.new }
    {
        Ok(match call {
            Call::Enter { station, mark } => {
                self.enter(station, mark)?;
                Effect::Entered
            }
            Call::Step { station, coin } => {
                let (operation, outcome) = self.step(station, coin)?;
                Effect::Stepped(operation, outcome)
            }
            Call::Stop { station } => {
                self.stop(station)?;
                Effect::Stopped
            }
        })
    }
}
