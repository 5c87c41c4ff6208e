use board::cell::CellBoard;
use collect::Collect;
use deciding::object::DecidingObject;
use deciding::record::{Outcome, Record};
use machine::machine::StepMachine;
use refusal::Refusal;
use std::test::Fail;
use trial::Trial;
use trial::call::{Call, Effect};
use trial::rehearsal::rehearse;

// Station 1 proposes 7 and is stopped after its first step, station 0 proposes 9 and comes to its outcome, and calls are
// refused in between.
const CALLS: [Call; 15] = [
    Call::Step {
        station: 1,
        coin: 0,
    },
    Call::Enter {
        station: 1,
        mark: 7,
    },
    Call::Enter {
        station: 1,
        mark: 8,
    },
    Call::Step {
        station: 1,
        coin: 0,
    },
    Call::Stop { station: 1 },
    Call::Step {
        station: 1,
        coin: 0,
    },
    Call::Enter {
        station: 0,
        mark: 9,
    },
    Call::Step {
        station: 0,
        coin: 0,
    },
    Call::Step {
        station: 0,
        coin: 0,
    },
    Call::Step {
        station: 0,
        coin: 0,
    },
    Call::Step {
        station: 0,
        coin: 0,
    },
    Call::Step {
        station: 0,
        coin: 0,
    },
    Call::Step {
        station: 0,
        coin: 0,
    },
    Call::Stop { station: 2 },
    Call::Enter {
        station: 2,
        mark: 9,
    },
];

#[test]
fn a_list_of_calls(rt: HostRuntime) -> Result<(), Fail> {
    let mut trial = Trial::new(StepMachine::new(Collect { stations: 2 }, CellBoard::new()));
    let answers = rehearse(&mut trial, &CALLS, rt.alloc())?;
    for (call, answer) in CALLS.iter().zip(answers.iter()) {
        println!(rt; "{call:?} gives {answer:?}")?;
    }
    assert!(rt; answers.len() == 15);
    assert_eq!(rt; answers[0], Err(Refusal::NotEntered));
    assert_eq!(rt; answers[1], Ok(Effect::Entered));
    assert_eq!(rt; answers[2], Err(Refusal::AlreadyEntered));
    assert_eq!(rt; answers[4], Ok(Effect::Stopped));
    assert_eq!(rt; answers[5], Err(Refusal::Stopped));
    assert_eq!(rt; answers[13], Err(Refusal::NoSuchStation));
    assert_eq!(rt;
        trial.record(1),
        Record::UnderWay {
            proposal: 7,
            steps: 1,
        }
    );
    assert_eq!(rt;
        trial.record(0),
        Record::Answered {
            proposal: 9,
            steps: 6,
            outcome: Outcome::Adopt(9),
        }
    );
    Ok(())
}
