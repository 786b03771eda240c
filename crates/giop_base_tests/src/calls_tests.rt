//! Steps of a table with room for three calls, and the number of the call under each id after each step.

use arrayvec::ArrayVec;
use giop_calls::{Call, Calls};
use std::test::Fail;

/// What is done with the calls.
#[derive(Clone, Copy, Debug)]
enum Step {
    /// A call of this id and message number is added.
    Add(u32, u64),
    /// The call of this id is taken.
    Take(u32),
    /// All are removed.
    Clear,
}

/// Each step, and the message numbers of the calls outstanding under the ids 1 to 5 after it; 0 where there is none.
const STEPS: [(Step, [u64; 5]); 13] = [
    (Step::Add(1, 10), [10, 0, 0, 0, 0]),
    (Step::Add(2, 20), [10, 20, 0, 0, 0]),
    (Step::Add(3, 30), [10, 20, 30, 0, 0]),
    // The oldest is forgotten.
    (Step::Add(4, 40), [0, 20, 30, 40, 0]),
    // A call takes an older one of its id away, and is the newest.
    (Step::Add(2, 21), [0, 21, 30, 40, 0]),
    (Step::Add(5, 50), [0, 21, 0, 40, 50]),
    (Step::Take(4), [0, 21, 0, 0, 50]),
    // An id without a call.
    (Step::Take(4), [0, 21, 0, 0, 50]),
    (Step::Add(1, 11), [11, 21, 0, 0, 50]),
    (Step::Add(3, 31), [11, 0, 31, 0, 50]),
    (Step::Clear, [0, 0, 0, 0, 0]),
    (Step::Take(3), [0, 0, 0, 0, 0]),
    (Step::Add(3, 32), [0, 0, 32, 0, 0]),
];

/// Does a step.
fn perform(calls: &mut Calls, step: Step) {
    match step {
        Step::Add(id, message) => calls.add(
            id,
            Call {
                operation: None,
                name: ArrayVec::new(),
                stream: 1,
                message,
                time: None,
            },
        ),
        Step::Take(id) => {
            calls.take(id);
        }
        Step::Clear => calls.clear(),
    }
}

/// The message number of the call under an id; 0 where there is none.
fn number_of(calls: &Calls, id: u32) -> u64 {
    match calls.find(id) {
        Some(call) => call.message,
        None => 0,
    }
}

#[test]
fn the_newest_call_of_each_id_is_outstanding(rt: HostRuntime) -> Result<(), Fail> {
    let mut calls = Calls::new(rt.alloc(), 3)?;
    for (at, (step, want)) in STEPS.iter().enumerate() {
        perform(&mut calls, *step);
        for id in 1..6 {
            assert_eq!(rt;
                number_of(&calls, id),
                want[id as usize - 1],
                "step {at}, id {id}"
            );
        }
    }
    Ok(())
}
