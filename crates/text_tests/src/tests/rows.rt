//! A table of many rows steps as a plain search through them does.
use impl_table::read_table;
use lin_form::{Reply, Vector};
use std::alloc::AllocError;
use std::test::Fail;
use subject::answers;

/// A row of the table below: its state, the least input for which it holds, its reply and the next state.
fn written_row(number: u64) -> (u64, u64, u64, u64) {
    let state = number.wrapping_mul(5) % 7;
    let least = number.wrapping_mul(3) % 11;
    let next = number.wrapping_mul(4) % 7;
    (state, least, number, next)
}

/// The reply and the next state, by going through all rows.
fn scanned(state: u64, input: u64) -> (u64, u64) {
    for number in 0u64..40 {
        let (from, least, reply, next) = written_row(number);
        if from == state && input >= least {
            return (reply, next);
        }
    }
    (state.wrapping_add(100), state)
}

// 40 rows of seven states, which stand among one another: each step takes the first row of its state that holds.
#[test]
fn first_row_of_the_state(rt: HostRuntime) -> Result<(), Fail> {
    let mut text = String::from_str(rt.alloc(), "table 1\ninput v 0 10\noutput o\n")?;
    for state in 0u64..7 {
        write!(text, "state s{state} gives {}\n", state.wrapping_add(100))?;
    }
    for number in 0u64..40 {
        let (state, least, reply, next) = written_row(number);
        write!(
            text,
            "row s{state} when v >= {least} gives {reply} go s{next}\n"
        )?;
    }
    let Ok(table) = read_table(rt.alloc(), text.as_bytes()) else {
        return Err(Fail::from(AllocError));
    };
    let mut word = Vec::new(rt.alloc());
    for step in 0u64..200 {
        let input = step.wrapping_mul(7).wrapping_add(step / 11) % 11;
        word.push(Vector::from_slice(rt.alloc(), &[input as i64]))?;
    }
    assert!(rt;
        word.as_slice()
            .iter()
            .all(|vector| table.signature.inputs.contains(vector))
    );
    let replies = answers(rt.alloc(), &table, word.as_slice())?;
    let mut state = 0;
    for (step, reply) in replies.as_slice().iter().enumerate() {
        let step = step as u64;
        let input = step.wrapping_mul(7).wrapping_add(step / 11) % 11;
        let (wanted, next) = scanned(state, input);
        assert!(rt;
            *reply == Reply::from_slice(&[(wanted % 1_000) as i64]),
            "{step}"
        );
        state = next;
    }
    Ok(())
}
