use board::cell::CellBoard;
use collect::Collect;
use deciding::object::DecidingObject;
use machine::machine::StepMachine;
use machine::protocol::Protocol;
use refusal::Refusal;
use sequence::Sequence;
use trial::Trial;
use waiting::Waiting;

type Part<P> = StepMachine<P, CellBoard>;

fn part<P: Protocol>(protocol: P) -> Part<P> {
    StepMachine::new(protocol, CellBoard::new())
}

fn collect_part(stations: u8) -> Part<Collect> {
    part(Collect { stations })
}

#[test]
fn parts_have_the_same_stations(rt: HostRuntime) {
    let unequal = Sequence::new(collect_part(2), collect_part(3));
    assert_eq!(rt; unequal.refused(), Some(Refusal::StationsDiffer));
    assert_eq!(rt; unequal.stations(), 0);
    let seventeen = Sequence::new(collect_part(17), collect_part(17));
    assert_eq!(rt; seventeen.refused(), Some(Refusal::StationCount));
}

#[test]
fn all_records_of_the_parts_are_away(rt: HostRuntime) {
    let mut used = collect_part(2);
    assert!(rt; used.enter(1, 7).is_ok());
    let joined = Sequence::new(collect_part(2), used);
    assert_eq!(rt; joined.refused(), Some(Refusal::NotAllAway));
}

fn waiting_part(limit: u16) -> Part<Waiting> {
    part(Waiting {
        stations: 1,
        more: limit.saturating_sub(1),
    })
}

#[test]
fn a_joined_limit_of_1000_passes(rt: HostRuntime) {
    let edge = Sequence::new(waiting_part(500), waiting_part(500));
    assert_eq!(rt; edge.refused(), None);
    assert_eq!(rt; edge.limit(), 1000);
    let past = Sequence::new(waiting_part(500), waiting_part(501));
    assert_eq!(rt; past.refused(), Some(Refusal::TooLarge));
    assert_eq!(rt; past.limit(), 0);
}

// Where each value has its parts twice, as a `Result` of the object or of what was given to it has, the check refuses four.
#[test]
fn four_machines_in_sequence_have_a_trial(rt: HostRuntime) {
    let third = Sequence::new(collect_part(2), collect_part(2));
    let second = Sequence::new(collect_part(2), third);
    let mut trial = Trial::new(Sequence::new(collect_part(2), second));
    assert_eq!(rt; trial.limit(), 24);
    assert_eq!(rt; trial.registers(), 16);
    assert!(rt; trial.enter(1, 7).is_ok());
    assert!(rt; trial.step(1, 0).is_ok());
}
