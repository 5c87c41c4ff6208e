ghost use Rattle.std.specs.Prelude.{◌≡◌};
ghost use Rattle.deciding.specs.Refusable.{granted};
ghost use Rattle.trial.specs.Perform.{trial_refusal};
ghost use Rattle.trial.specs.Trials.{Begun, made_of, tried, whole};

use super::Trial;
use deciding::object::DecidingObject;
use deciding::questions::{all_away, one_to_sixteen};
use deciding::record::Record;
use refusal::Refusal;

// Asks the questions of a making.
fn ask<D: DecidingObject>(pile: &D) -> Result<(), Refusal>
    ensures { result ≡ granted (trial_refusal D.DecidingObject.machine (D.DecidingObject.state pile.now)) }
{
    if !one_to_sixteen(pile.stations()) {
        return Err(Refusal::StationCount);
    }
    if !all_away(pile) {
        return Err(Refusal::NotAllAway);
    }
    Ok(())
}

impl<D: DecidingObject> Trial<D> {
    // A trial of the pile, with nobody stopped. Where a question is answered no it has no stations.
    pub fn new(pile: D) -> Trial<D>
        ensures state { tried D.DecidingObject result ≡ made_of D.DecidingObject pile }
        ensures given { result.pile ≡ pile }
        ensures begun { Begun D.DecidingObject result }
    {
        let refused = ask(&pile).err();
        Trial {
            pile,
            stopped: [false; 16],
            refused,
        }
    }

    pub fn stations(&self) -> u8
        ensures { result ≡ (whole D.DecidingObject).stations (tried D.DecidingObject self.now).object }
    {
        match self.refused {
            None => self.pile.stations(),
            Some(_) => 0,
        }
    }

    pub fn limit(&self) -> u16
        ensures { result ≡ (whole D.DecidingObject).limit (tried D.DecidingObject self.now).object }
    {
        match self.refused {
            None => self.pile.limit(),
            Some(_) => 0,
        }
    }

    pub fn registers(&self) -> u16
        ensures { result ≡ (whole D.DecidingObject).registers (tried D.DecidingObject self.now).object }
    {
        match self.refused {
            None => self.pile.registers(),
            Some(_) => 0,
        }
    }

    pub fn ratifying(&self) -> bool
        ensures { result ≡ (whole D.DecidingObject).ratifying (tried D.DecidingObject self.now).object }
    {
        match self.refused {
            None => self.pile.ratifying(),
            Some(_) => false,
        }
    }

    // Why the making of the trial was refused, if it was.
    pub fn refused(&self) -> Option<Refusal>
        ensures { result ≡ (whole D.DecidingObject).refused (tried D.DecidingObject self.now).object }
    {
        self.refused
    }

    pub fn record(&self, station: u8) -> Record
        ensures { result ≡ (whole D.DecidingObject).record_of (tried D.DecidingObject self.now).object station }
    {
        match self.refused {
            None => self.pile.record(station),
            Some(_) => Record::Away,
        }
    }
}
