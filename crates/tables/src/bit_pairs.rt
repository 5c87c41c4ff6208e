ghost use Rattle.std.specs.Prelude.{◌≡◌, refl, ◌<◌};
ghost use Rattle.std.specs.Int.{bit_at};
ghost use Rattle.tables.specs.BitPairs.{bit_pairs};
ghost use Rattle.tables.specs.BitPairsLawful.{bit_pairs_lawful};

use super::table::QuorumTable;

// A pair of registers for each of the eight bits of a mark, 2i and 2i + 1 for bit i. A mark writes 2i + b, where b is its bit,
// and reads the other of the pair.
pub struct BitPairs;

// A bit of the mark, bit 0 lowest.
fn bit(mark: u8, index: u16) -> u16
    requires { index < 8 }
    ensures { result ≡ bit_at mark index }
{
    u16::from((mark >> index) & 1)
}

#[tactic(auto, using(crate::specs::BitPairsLawful::listed_at, crate::specs::BitPairsLawful::listed_past))]
impl QuorumTable for BitPairs {
    const POOL: u16 = 16;

    const WRITES: u16 = 8;

    const READS: u16 = 8;

    ghost POOL = { bit_pairs.pool_size };

    ghost WRITES = { bit_pairs.write_size };

    ghost READS = { bit_pairs.read_size };

    ghost table = { bit_pairs };

    ghost lawful = { bit_pairs_lawful };

    fn write_register(mark: u8, index: u16) -> u16 {
        if index < Self::WRITES {
            2 * index + bit(mark, index)
        } else {
            0
        }
    }

    fn read_register(mark: u8, index: u16) -> u16 {
        if index < Self::READS {
            2 * index + 1 - bit(mark, index)
        } else {
            0
        }
    }

    ghost sizes = { (refl, refl, refl) };
}
