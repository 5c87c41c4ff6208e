ghost use Rattle.std.specs.Prelude.{◌≡◌};
ghost use Rattle.deciding.specs.Away.{all_away};
ghost use Rattle.deciding.specs.Sizes.{one_to_sixteen};

use super::object::DecidingObject;

// Is this a number of stations that an object may have?
pub fn one_to_sixteen(stations: u8) -> bool
    ensures { result ≡ one_to_sixteen stations }
{
    (1..=16).contains(&stations)
}

// Are the records of all sixteen stations away?
pub fn all_away<D: DecidingObject>(object: &D) -> bool
    ensures { result ≡ all_away (D.DecidingObject.machine.record_of (D.DecidingObject.state object.now)) 16 }
{
    (0..16).all(|station| object.record(station).is_away())
}
