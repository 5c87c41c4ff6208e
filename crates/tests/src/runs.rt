use refusal::Refusal;
use rehearsal::run::run;
use std::process::Abort;

// The listing of a schedule, and what the run answers; the byte after those written is as it was.
fn lists(
    rt: &impl Abort,
    schedule: &[u8],
    expected: &[u8],
    consumed: usize,
    ended: Option<Refusal>,
) {
    let mut listing = [b'#'; 1024];
    let ran = run(schedule, &mut listing);
    assert_eq!(rt; ran.consumed, consumed);
    assert_eq!(rt; ran.ended, ended);
    assert!(rt; ran.written < 1024 && ran.written == expected.len());
    assert!(rt; &listing[0..ran.written] == expected);
    assert_eq!(rt; listing[ran.written], b'#');
}

#[test]
fn an_empty_schedule_answers_nothing(rt: HostRuntime) {
    lists(&rt, b"", b"", 0, None);
}

#[test]
fn a_schedule_has_at_most_4096_bytes(rt: HostRuntime) {
    let mut listing = [b'#'; 64];
    let ran = run(&[b'X'; 4097], &mut listing);
    assert_eq!(rt; ran.consumed, 0);
    assert_eq!(rt; ran.written, 0);
    assert_eq!(rt; ran.ended, Some(Refusal::ScheduleTooLong));
    assert_eq!(rt; listing[0], b'#');
    let ran = run(&[b'X'; 4096], &mut listing);
    assert_eq!(rt; ran.ended, Some(Refusal::UnknownLetter));
}

#[test]
fn a_command_wants_48_free_bytes(rt: HostRuntime) {
    let ran = run(b"L\x00", &mut [0; 47]);
    assert_eq!(rt; ran.consumed, 0);
    assert_eq!(rt; ran.written, 0);
    assert_eq!(rt; ran.ended, Some(Refusal::ListingFull));
    let ran = run(b"L\x00", &mut [0; 48]);
    assert_eq!(rt; ran.written, 11);
    assert_eq!(rt; ran.ended, None);
}

#[test]
fn what_cannot_be_read_ends_the_run(rt: HostRuntime) {
    lists(&rt, b"X", b"refused 3\n", 0, Some(Refusal::UnknownLetter));
    lists(&rt, b"E", b"refused 4\n", 0, Some(Refusal::OperandsMissing));
    lists(
        &rt,
        b"L\x00N\x01\x01",
        b"refused 14\nrefused 4\n",
        2,
        Some(Refusal::OperandsMissing),
    );
}

#[test]
fn sixteen_stations_at_most(rt: HostRuntime) {
    lists(
        &rt,
        b"N\x01\x10\x0fN\x01\x11\x00N\x01\x00\x00N\x01\x02\x02N\x07\x01\x00",
        b"pile 1 stations 16 limit 34 registers 32\nrefused 6\nrefused 6\nrefused 7\nrefused 5\n",
        20,
        None,
    );
}

#[test]
fn a_refused_n_leaves_the_trial(rt: HostRuntime) {
    lists(
        &rt,
        b"N\x01\x01\x00E\x00\x07N\x01\x11\x00S\x00\x00N\x01\x01\x00S\x00\x00",
        b"pile 1 stations 1 limit 4 registers 2\nenter 0 mark 7\nrefused 6\nstep 0 write 0 8\npile 1 stations 1 limit 4 registers 2\nrefused 18\n",
        21,
        None,
    );
}

// Station 0 reads both marks before station 1 writes its own, so it votes full; station 1 finds that vote.
#[test]
fn one_commits_and_the_other_adopts_its_mark(rt: HostRuntime) {
    lists(
        &rt,
        b"N\x01\x02\x00E\x00\x04E\x01\x09S\x00\x00S\x00\x00S\x00\x00S\x01\x00S\x00\x00S\x01\x00S\x01\x00\
          S\x00\x00S\x00\x00S\x01\x00S\x01\x00S\x01\x00",
        b"pile 1 stations 2 limit 6 registers 4\nenter 0 mark 4\nenter 1 mark 9\nstep 0 write 0 5\nstep 0 read 0 5\nstep 0 read 1 0\nstep 1 write 1 10\nstep 0 write 2 10\n\
          step 1 read 0 5\nstep 1 read 1 10\nstep 0 read 2 10\nstep 0 read 3 0 commit 4\nstep 1 write 3 19\nstep 1 read 2 10\nstep 1 read 3 19 adopt 4\n",
        46,
        None,
    );
}
