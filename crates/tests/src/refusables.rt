use board::cell::CellBoard;
use collect::Collect;
use deciding::object::DecidingObject;
use deciding::record::Record;
use deciding::refusable::Refusable;
use machine::machine::StepMachine;
use refusal::Refusal;

// A machine, or why there is none with the number of stations that was asked for.
type Made = Refusable<StepMachine<Collect, CellBoard>, u8>;

fn machine(stations: u8) -> StepMachine<Collect, CellBoard> {
    StepMachine::new(Collect { stations }, CellBoard::new())
}

#[test]
fn a_refusable_shows_the_object_in_it(rt: HostRuntime) {
    let mut made: Made = Refusable::new(Ok(machine(2)));
    assert_eq!(rt; made.refused(), None);
    assert_eq!(rt; made.stations(), 2);
    assert_eq!(rt; made.limit(), 6);
    assert_eq!(rt; made.registers(), 4);
    assert!(rt; made.ratifying());
    assert!(rt; made.enter(1, 7).is_ok());
    assert!(rt; made.step(1, 0).is_ok());
    assert_eq!(rt;
        made.record(1),
        Record::UnderWay {
            proposal: 7,
            steps: 1
        }
    );
    let refused: Made = Refusable::new(Ok(machine(17)));
    assert_eq!(rt; refused.refused(), Some(Refusal::StationCount));
}

#[test]
fn a_refusable_without_an_object_shows_the_refusal(rt: HostRuntime) {
    let mut refused: Made = Refusable::new(Err((Refusal::TooFewRegisters, 2)));
    assert_eq!(rt; refused.refused(), Some(Refusal::TooFewRegisters));
    assert_eq!(rt; refused.stations(), 0);
    assert_eq!(rt; refused.limit(), 0);
    assert_eq!(rt; refused.registers(), 0);
    assert!(rt; !refused.ratifying());
    assert_eq!(rt; refused.record(1), Record::Away);
    assert_eq!(rt; refused.enter(1, 7).err(), Some(Refusal::NoSuchStation));
    assert_eq!(rt; refused.step(1, 0).err(), Some(Refusal::NoSuchStation));
}
