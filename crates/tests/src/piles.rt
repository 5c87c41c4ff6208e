use rehearsal::run::run;
use std::alloc::{AllocError, Global};
use std::process::Abort;
use std::test::Fail;

// A schedule that begins so, and in which then each station named takes so many steps, with coin 0.
fn schedule(heap: Global, start: &[u8], turns: &[(u8, u8)]) -> Result<Vec<u8>, AllocError> {
    let mut bytes = start.to_vec(heap)?;
    for (station, steps) in turns {
        for _ in 0..*steps {
            bytes.push(b'S')?;
            bytes.push(*station)?;
            bytes.push(0)?;
        }
    }
    Ok(bytes)
}

// The listing of such a schedule begins with one line and ends with another.
fn lists(
    rt: &impl Abort,
    heap: Global,
    start: &[u8],
    turns: &[(u8, u8)],
    first: &[u8],
    last: &[u8],
) -> Result<(), Fail> {
    let bytes = schedule(heap, start, turns)?;
    let mut listing = [0; 4096];
    let ran = run(&bytes, &mut listing);
    assert!(rt; ran.ended.is_none());
    assert!(rt; ran.written <= 4096);
    let text = &listing[0..ran.written];
    assert!(rt; text.starts_with(first));
    assert!(rt; text.ends_with(last));
    Ok(())
}

#[test]
fn quorum_stations_that_agree_commit(rt: HostRuntime) -> Result<(), Fail> {
    lists(
        &rt,
        rt.alloc(),
        b"N\x02\x02\x00E\x00\x05E\x01\x05",
        &[(0, 9), (1, 9), (0, 9), (1, 9)],
        b"pile 2 stations 2 limit 18 registers 17\n",
        b"step 1 read 15 0 commit 5\n",
    )
}

#[test]
fn a_later_quorum_station_adopts(rt: HostRuntime) -> Result<(), Fail> {
    lists(
        &rt,
        rt.alloc(),
        b"N\x02\x02\x00E\x00\x05E\x01\x04",
        &[(0, 18), (1, 10)],
        b"pile 2 stations 2 limit 18 registers 17\n",
        b"step 1 read 16 6\nstep 1 read 0 1 adopt 5\n",
    )
}

// Station 0 has read register 16 and is stopped before it writes there.
#[test]
fn a_quorum_station_stops_before_its_preference(rt: HostRuntime) -> Result<(), Fail> {
    let heap = rt.alloc();
    let before = schedule(heap, b"N\x02\x02\x00E\x00\x05E\x01\x04", &[(0, 9)])?;
    let mut stopped = before.clone()?;
    stopped.push(b'L')?;
    stopped.push(0)?;
    lists(
        &rt,
        heap,
        &stopped,
        &[(0, 1), (1, 11)],
        b"pile 2 stations 2 limit 18 registers 17\n",
        b"step 1 read 16 0\nstep 1 write 16 5\nstep 1 read 1 1 adopt 4\n",
    )
}

#[test]
fn a_coin_and_then_collect(rt: HostRuntime) -> Result<(), Fail> {
    lists(
        &rt,
        rt.alloc(),
        b"N\x03\x02\x00E\x00\x05E\x01\x04",
        &[(0, 3), (1, 1), (0, 6), (1, 6)],
        b"pile 3 stations 2 limit 10 registers 5\n",
        b"step 1 read 3 12\nstep 1 read 4 12 commit 5\n",
    )
}

#[test]
fn a_leader_and_then_a_quorum(rt: HostRuntime) -> Result<(), Fail> {
    lists(
        &rt,
        rt.alloc(),
        b"N\x04\x03\x01E\x00\x04E\x01\x09E\x02\x06",
        &[(0, 1), (1, 1), (2, 1), (1, 13), (2, 12), (0, 8)],
        b"pile 4 stations 3 limit 14 registers 13\n",
        b"step 0 read 6 1 adopt 9\n",
    )
}

#[test]
fn collect_a_coin_and_a_quorum(rt: HostRuntime) -> Result<(), Fail> {
    lists(
        &rt,
        rt.alloc(),
        b"N\x05\x02\x00E\x00\x07E\x01\x09",
        &[(0, 1), (1, 1), (0, 26), (1, 23)],
        b"pile 5 stations 2 limit 28 registers 22\n",
        b"step 1 read 20 0 commit 7\n",
    )
}

#[test]
fn four_machines_in_a_row(rt: HostRuntime) -> Result<(), Fail> {
    lists(
        &rt,
        rt.alloc(),
        b"N\x06\x02\x01E\x00\x07E\x01\x09",
        &[(0, 1), (1, 1), (0, 12), (1, 16)],
        b"pile 6 stations 2 limit 24 registers 18\n",
        b"step 1 read 17 16 commit 7\n",
    )
}
