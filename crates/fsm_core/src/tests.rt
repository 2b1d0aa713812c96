ghost use Rattle.std.specs.Prelude.{◌≡◌};

use super::*;
use std::process::Abort;
use std::test::Fail;

// A lift of three floors: the letter 0 goes up, 1 goes down and 2 stays. It replies with the floor that it
// reaches, and with nothing where it cannot go on.
const LETTERS: usize = 3;

const ROWS: [(usize, usize); 9] = [
    (1, 1),
    (0, 3),
    (0, 0),
    (2, 2),
    (0, 0),
    (1, 1),
    (2, 3),
    (1, 1),
    (2, 2),
];

// Compares a machine with the rows of the lift.
fn check_rows(rt: &impl Abort, lift: &Fsm)
    requires states { lift.now.states ≡ 3 }
    requires letters { lift.now.letters ≡ 3 }
{
    for state in 0..3 {
        for letter in 0..3 {
            let want = ROWS[state * 3 + letter as usize];
            assert_eq!(rt; lift.step(state, letter), want);
        }
    }
}

#[test]
fn a_lift(rt: HostRuntime) -> Result<(), Fail> {
    let mut replies = Vec::new(rt.alloc());
    for numbers in [[0].as_slice(), &[1], &[2], &[]] {
        assert!(rt; numbers.len() <= 8);
        replies.push(Reply::from_slice(numbers))?;
    }
    assert!(rt; Fsm::is_machine(LETTERS, &ROWS, replies.as_slice()));
    let rows = Vec::from_slice(rt.alloc(), &ROWS)?;
    let lift = Fsm::new(LETTERS, rows, replies);
    assert_eq!(rt; lift.states(), 3);
    assert_eq!(rt; lift.letters(), 3);
    assert_eq!(rt; lift.replies(), 4);
    check_rows(&rt, &lift);
    let words = [
        (0, [].as_slice(), 0),
        (2, &[], 2),
        (0, &[0], 1),
        (0, &[0, 0], 2),
        (0, &[0, 0, 0], 2),
        (0, &[0, 0, 1], 1),
        (2, &[1, 2, 1, 1, 0], 1),
    ];
    for (state, word, want) in words {
        assert!(rt; word.iter().all(|letter| *letter < 3));
        assert_eq!(rt; lift.follow(state, word), want, "{word:?}");
    }
    assert_eq!(rt; lift.reply(2).as_slice(), [2].as_slice());
    assert!(rt; lift.reply(3).as_slice().is_empty());
    Ok(())
}

#[test]
fn rules_of_a_machine(rt: HostRuntime) -> Result<(), Fail> {
    let replies = [
        Reply::from_slice(&[1]),
        Reply::from_slice(&[2]),
        Reply::from_slice(&[1]),
    ];
    let rows = [
        (1, [(0, 0)].as_slice(), 1, true),
        (1, &[(0, 0)], 2, true),
        (1, &[(0, 0)], 3, false),
        (1, &[(0, 0)], 0, false),
        (1, &[(1, 0)], 1, false),
        (1, &[(1, 0), (0, 1)], 2, true),
        (1, &[(1, 0), (0, 1)], 1, false),
        (2, &[(1, 0), (0, 1)], 2, false),
        (2, &[(0, 0), (0, 1)], 2, true),
        (2, &[(0, 0), (0, 1), (0, 0)], 2, false),
        (0, &[(0, 0)], 1, false),
        (1, &[], 1, false),
    ];
    for (letters, rows, count, want) in rows {
        let found = Fsm::is_machine(letters, rows, &replies[..count]);
        assert_eq!(rt; found, want, "{letters} {rows:?} {count}");
    }
    let most_rows = vec![in rt.alloc(); (0, 0); 1024 * 4096]?;
    assert!(rt; Fsm::is_machine(4096, most_rows.as_slice(), &replies[..1]));
    assert!(rt; !Fsm::is_machine(2048, most_rows.as_slice(), &replies[..1]));
    assert!(rt; !Fsm::is_machine(8192, most_rows.as_slice(), &replies[..1]));
    Ok(())
}

#[test]
fn states_that_are_reached(rt: HostRuntime) -> Result<(), Fail> {
    let tables = [
        (1, [(0, 0)].as_slice(), true),
        (1, &[(1, 0), (0, 0)], true),
        (1, &[(0, 0), (0, 0)], false),
        (1, &[(2, 0), (1, 0), (2, 0)], false),
        (1, &[(2, 0), (0, 0), (1, 0)], true),
        (2, &[(0, 0), (2, 0), (1, 0), (1, 0), (0, 0), (1, 0)], true),
        (2, &[(0, 0), (2, 0), (1, 0), (1, 0), (0, 0), (2, 0)], false),
    ];
    for (letters, rows, want) in tables {
        let replies = vec![in rt.alloc(); Reply::from_slice(&[])]?;
        assert!(rt; Fsm::is_machine(letters, rows, replies.as_slice()));
        let fsm = Fsm::new(letters, Vec::from_slice(rt.alloc(), rows)?, replies);
        assert_eq!(rt; fsm.all_reached(rt.alloc())?, want, "{rows:?}");
    }
    Ok(())
}

#[test]
fn states_in_the_order_of_the_search(rt: HostRuntime) -> Result<(), Fail> {
    let rows = [
        (3, 0),
        (0, 0),
        (1, 0),
        (1, 0),
        (0, 0),
        (1, 0),
        (4, 0),
        (2, 0),
        (3, 0),
        (4, 0),
    ];
    // For each state that is found: the state, the place of the one that leads to it, and the letter.
    let want = [(0, 0, 0), (3, 0, 0), (4, 1, 0), (2, 1, 1), (1, 3, 1)];
    let replies = vec![in rt.alloc(); Reply::from_slice(&[])]?;
    assert!(rt; Fsm::is_machine(2, &rows, replies.as_slice()));
    let fsm = Fsm::new(2, Vec::from_slice(rt.alloc(), &rows)?, replies);
    let found = search(rt.alloc(), &fsm)?;
    assert_eq!(rt; found.len(), want.len());
    for (place, found) in found.iter().enumerate() {
        assert_eq!(rt; (found.state, found.from, found.letter), want[place]);
    }
    Ok(())
}

#[test]
fn rows_that_need_more_than_32_bits(rt: HostRuntime) -> Result<(), Fail> {
    let most = u32::MAX as usize;
    let pairs = [(3, most), (most, 4), (5, most + 1), (most + 1, 6), (7, 8)];
    let mut rows = Rows::with_capacity(rt.alloc(), 1)?;
    for (next, number) in pairs {
        rows.push(next, number)?;
    }
    assert_eq!(rt; rows.len(), pairs.len());
    for (place, pair) in pairs.iter().enumerate() {
        assert_eq!(rt; rows.at(place), *pair);
    }
    Ok(())
}
