#![tactic(auto)]

ghost use Rattle.std.specs.Prelude.{◌≡◌};
ghost use Rattle.tables.specs.BitPairs.{bit_pairs};
ghost use Rattle.tables.specs.Examples.{Examples};

use bit_pairs::BitPairs;
use table::QuorumTable;

pub mod bit_pairs;
pub mod half_sets;
pub mod table;

// The write set of mark 5 on bit pairs. The contract also has the worked examples of both tables, as theorems about their
// definitions.
pub fn examples() -> [u16; 8]
    ensures written { result ≡ bit_pairs.write_set 5 }
    ensures examples { Examples }
{
    [0, 1, 2, 3, 4, 5, 6, 7].map(|index| BitPairs::write_register(5, index))
}
