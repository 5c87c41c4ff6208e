ghost use Rattle.std.specs.Prelude.{◌≡◌, refl, slice_index};
ghost use Rattle.tables.specs.HalfSets.{entry as entry_of, half_sets, places};
ghost use Rattle.tables.specs.HalfSetsLawful.{half_sets_lawful};

use super::table::QuorumTable;

// The 256 smallest numbers that have exactly five ones in binary, ascending. The proof computes them again.
const FIVE_ONES: [u16; 256] = [
    31, 47, 55, 59, 61, 62, 79, 87, 91, 93, 94, 103, 107, 109, 110, 115, 117, 118, 121, 122, 124,
    143, 151, 155, 157, 158, 167, 171, 173, 174, 179, 181, 182, 185, 186, 188, 199, 203, 205, 206,
    211, 213, 214, 217, 218, 220, 227, 229, 230, 233, 234, 236, 241, 242, 244, 248, 271, 279, 283,
    285, 286, 295, 299, 301, 302, 307, 309, 310, 313, 314, 316, 327, 331, 333, 334, 339, 341, 342,
    345, 346, 348, 355, 357, 358, 361, 362, 364, 369, 370, 372, 376, 391, 395, 397, 398, 403, 405,
    406, 409, 410, 412, 419, 421, 422, 425, 426, 428, 433, 434, 436, 440, 451, 453, 454, 457, 458,
    460, 465, 466, 468, 472, 481, 482, 484, 488, 496, 527, 535, 539, 541, 542, 551, 555, 557, 558,
    563, 565, 566, 569, 570, 572, 583, 587, 589, 590, 595, 597, 598, 601, 602, 604, 611, 613, 614,
    617, 618, 620, 625, 626, 628, 632, 647, 651, 653, 654, 659, 661, 662, 665, 666, 668, 675, 677,
    678, 681, 682, 684, 689, 690, 692, 696, 707, 709, 710, 713, 714, 716, 721, 722, 724, 728, 737,
    738, 740, 744, 752, 775, 779, 781, 782, 787, 789, 790, 793, 794, 796, 803, 805, 806, 809, 810,
    812, 817, 818, 820, 824, 835, 837, 838, 841, 842, 844, 849, 850, 852, 856, 865, 866, 868, 872,
    880, 899, 901, 902, 905, 906, 908, 913, 914, 916, 920, 929, 930, 932, 936, 944, 961, 962, 964,
    968, 976, 992, 1039, 1047, 1051, 1053,
];

// A mark writes five registers of eleven, a different five for each mark, and reads the other six.
pub struct HalfSets;

// The number of a mark: the mark writes register i where bit i of it is 1.
fn entry(mark: u8) -> u16
    ensures { result ≡ entry_of mark }
{
    FIVE_ONES[usize::from(mark)]
}

// The register at an index of those in the pool where the number has the given bit; 0 past their end.
fn register_at(number: u16, bit: u16, index: u16) -> u16
    ensures { result ≡ slice_index (places number bit 11) index }
{
    (0..HalfSets::POOL)
        .filter(|register| (number >> register) & 1 == bit)
        .nth(usize::from(index))
        .unwrap_or(0)
}

impl QuorumTable for HalfSets {
    const POOL: u16 = 11;

    const WRITES: u16 = 5;

    const READS: u16 = 6;

    ghost POOL = { half_sets.pool_size };

    ghost WRITES = { half_sets.write_size };

    ghost READS = { half_sets.read_size };

    ghost table = { half_sets };

    ghost lawful = { half_sets_lawful };

    fn write_register(mark: u8, index: u16) -> u16 {
        register_at(entry(mark), 1, index)
    }

    fn read_register(mark: u8, index: u16) -> u16 {
        register_at(entry(mark), 0, index)
    }

    ghost sizes = { (refl, refl, refl) };
}
