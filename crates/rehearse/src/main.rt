#![tactic(auto)]

use rehearsal::run::run;
use std::io;
use std::io::{Read, Write};

// One byte more than a schedule may have, so that a longer one is refused and not cut off.
const MOST: u64 = 4097;

const LISTING: usize = 65536;

// Carries out the schedule on standard input, and writes the listing to standard output.
fn main(rt: HostRuntime) -> io::Result<()> {
    let mut schedule = Vec::new(rt.alloc());
    let _ = rt.stdin().take(MOST).read_to_end(&mut schedule)?;
    let mut listing = vec![in rt.alloc(); 0u8; LISTING]?;
    let ran = run(&schedule, &mut listing);
    rt.stdout().write_all(&listing[..ran.written])
}
