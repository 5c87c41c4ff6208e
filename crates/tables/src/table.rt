ghost use Rattle.std.specs.Prelude.{◌≡◌, ℕ, ◌+◌, ◌≤◌, slice_index};
ghost use Rattle.tables.specs.Sizes.{small_sizes};
ghost use Rattle.tables.specs.Table.{Table, Lawful};

// A write set and a read set of registers for each mark, out of one pool: registers 0 to k − 1. The write set of a mark has a
// register in common with the read set of every other mark, and none with the read set of its own.
pub trait QuorumTable {
    // How many registers there are in the pool, in every write set and in every read set.
    const POOL: u16;

    const WRITES: u16;

    const READS: u16;

    // The same numbers, by which clauses name them.
    ghost POOL: { ℕ };

    ghost WRITES: { ℕ };

    ghost READS: { ℕ };

    // The sizes and the sets.
    ghost table: { Table };

    // What holds of them, with its proof.
    ghost lawful: { Lawful table };

    // The register at an index of the mark's write set, lowest first; 0 past its end.
    fn write_register(mark: u8, index: u16) -> u16
        ensures { result ≡ slice_index (table.write_set mark) index };

    fn read_register(mark: u8, index: u16) -> u16
        ensures { result ≡ slice_index (table.read_set mark) index };

    // Each constant is the table's number.
    ghost sizes: { (POOL ≡ table.pool_size) × (WRITES ≡ table.write_size) × (READS ≡ table.read_size) };

    // The two sets of a mark share no register, so that together they have no more than the pool.
    ghost sizes_fit: { table.write_size + table.read_size ≤ 998 } = { small_sizes table lawful };
}
