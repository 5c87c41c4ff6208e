#![tactic(auto)]

ghost use Rattle.std.specs.Prelude.{◌≡◌};
ghost use Rattle.conciliators.specs.Examples.{coin_limits, Examples};

use coin::Coin;
use machine::protocol::Protocol;

pub mod coin;
pub mod leader;

// The limits of the coin conciliator of 1, 2, 8, 9 and 16 stations. The contract also has the worked examples of both
// conciliators, as theorems about their definitions.
pub fn examples() -> [u16; 5]
    ensures limits { result ≡ coin_limits }
    ensures examples { Examples }
{
    [1, 2, 8, 9, 16].map(|stations| Coin { stations }.limit())
}
