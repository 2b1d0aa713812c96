ghost use Rattle.std.specs.Prelude.{◌<◌};

use super::*;
use lin_form::Reply;
use std::process::Abort;
use std::test::Fail;

// A machine whose reply with the number n is the one number n.
fn machine(
    rt: &impl Abort,
    alloc: Global,
    letters: usize,
    rows: &[(usize, usize)],
) -> Result<Fsm, AllocError> {
    let mut replies = Vec::new(alloc);
    for number in 0..3 {
        replies.push(Reply::from_slice(&[number]))?;
    }
    let rows = Vec::from_slice(alloc, rows)?;
    assert!(rt; Fsm::is_machine(letters, rows.as_slice(), replies.as_slice()));
    Ok(Fsm::new(letters, rows, replies))
}

// Reduces a machine that reaches all its states, and compares each state's row with that of its image.
fn reduce_and_compare(rt: &impl Abort, alloc: Global, fsm: &Fsm) -> Result<Reduced, AllocError> {
    assert!(rt; fsm.all_reached(alloc)?);
    let reduced = reduce(alloc, fsm)?;
    let image = reduced.image.as_slice();
    assert_eq!(rt; reduced.fsm.letters(), fsm.letters());
    assert_eq!(rt; reduced.fsm.replies(), fsm.replies());
    assert_eq!(rt; image.len(), fsm.states());
    assert_eq!(rt; image.first(), Some(&0));
    for state in 0..fsm.states() {
        for letter in 0..fsm.letters() as u16 {
            let (next, reply) = fsm.step(state, letter);
            let want = (image[next], reply);
            assert_eq!(rt; reduced.fsm.step(image[state], letter), want);
        }
    }
    Ok(reduced)
}

// Reduces a machine, and compares the images of its states with those that are expected.
fn check_image(
    rt: &impl Abort,
    alloc: Global,
    letters: usize,
    rows: &[(usize, usize)],
    want: &[usize],
) -> Result<(), AllocError> {
    let fsm = machine(rt, alloc, letters, rows)?;
    let reduced = reduce_and_compare(rt, alloc, &fsm)?;
    assert_eq!(rt; reduced.image.as_slice(), want, "{rows:?}");
    Ok(())
}

#[test]
fn machines_by_hand(rt: HostRuntime) -> Result<(), Fail> {
    let alloc = rt.alloc();
    let tables = [
        // One state.
        (2, [(0, 1), (0, 0)].as_slice(), [0].as_slice()),
        // All states agree.
        (1, &[(1, 2), (2, 2), (0, 2)], &[0, 0, 0]),
        // The states 0, 1 and 2 agree on one letter, 0 and 1 also on a word of two.
        (1, &[(1, 0), (2, 0), (3, 0), (3, 1)], &[0, 1, 2, 3]),
        // The same, where the states 0, 1 and 2 also have a letter that tells none apart.
        (
            2,
            &[
                (0, 0),
                (1, 0),
                (0, 0),
                (2, 0),
                (0, 0),
                (3, 0),
                (0, 0),
                (3, 1),
            ],
            &[0, 1, 2, 3],
        ),
        // A state that acts like the start comes last.
        (
            2,
            &[(1, 0), (0, 0), (2, 0), (0, 1), (1, 0), (2, 0)],
            &[0, 1, 0],
        ),
    ];
    for (letters, rows, want) in tables {
        check_image(&rt, alloc, letters, rows, want)?;
    }
    Ok(())
}

#[test]
fn two_states_of_four_alike(rt: HostRuntime) -> Result<(), Fail> {
    // The second and the last act alike.
    let rows = [
        (0, 2),
        (1, 0),
        (1, 0),
        (2, 1),
        (2, 1),
        (0, 0),
        (1, 0),
        (3, 0),
        (2, 1),
        (2, 1),
        (0, 0),
        (2, 1),
        (2, 1),
        (2, 1),
        (2, 1),
        (0, 0),
        (3, 0),
        (1, 0),
        (2, 1),
        (2, 1),
    ];
    check_image(&rt, rt.alloc(), 5, &rows, &[0, 1, 2, 1])?;
    Ok(())
}

// A ring of 1,024 states against the order of their numbers, 0, 1, 1023, 1022 and so on, where 0 and one more state,
// if it is above 2, answer by 1 and all others by 0.
fn falling_ring(alloc: Global, more: usize) -> Result<Vec<(usize, usize)>, AllocError> {
    let mut rows = Vec::new(alloc);
    rows.push((1, 1))?;
    rows.push((1023, 0))?;
    rows.push((0, 0))?;
    for next in 2..1023 {
        let reply = if next + 1 == more { 1 } else { 0 };
        rows.push((next, reply))?;
    }
    Ok(rows)
}

#[test]
fn rings_that_differ_late(rt: HostRuntime) -> Result<(), Fail> {
    let alloc = rt.alloc();
    let mut rising = Vec::new(alloc);
    for state in 1..1024 {
        rising.push((state, 0))?;
    }
    rising.push((0, 1))?;
    let falling = falling_ring(alloc, 0)?;
    // The state 513 stands half way round.
    let halves = falling_ring(alloc, 513)?;
    let rings = [
        (rising.as_slice(), 1024),
        (falling.as_slice(), 1024),
        (halves.as_slice(), 512),
    ];
    for (rows, want) in rings {
        let fsm = machine(&rt, alloc, 1, rows)?;
        let reduced = reduce_and_compare(&rt, alloc, &fsm)?;
        assert_eq!(rt; reduced.fsm.states(), want);
    }
    Ok(())
}

// The next number of a linear congruential sequence, below a limit.
fn draw(seed: &mut u32, limit: u32) -> usize
    requires { 0 < limit }
    ensures { result < limit }
{
    *seed = seed.wrapping_mul(1664525).wrapping_add(1013904223);
    ((*seed >> 16) % limit) as usize
}

// The pairs of states that some word tells apart, found by going on from the pairs found so far until there are
// no more. The pair of s and t stands at s * 8 + t.
fn told_pairs(rt: &impl Abort, fsm: &Fsm) -> [bool; 64] {
    assert!(rt; fsm.states() <= 8);
    let mut told = [false; 64];
    for _ in 0..28 {
        for s in 0..fsm.states() {
            for t in 0..fsm.states() {
                for letter in 0..fsm.letters() as u16 {
                    let (p, x) = fsm.step(s, letter);
                    let (q, y) = fsm.step(t, letter);
                    if x != y || told[p * 8 + q] {
                        told[s * 8 + t] = true;
                    }
                }
            }
        }
    }
    told
}

#[test]
fn agrees_with_a_search_of_pairs(rt: HostRuntime) -> Result<(), Fail> {
    let alloc = rt.alloc();
    let mut tried = 0u32;
    for start in 0..300u32 {
        let mut seed = start;
        let states = 1 + draw(&mut seed, 8);
        let letters = 1 + draw(&mut seed, 3);
        let mut rows = Vec::new(alloc);
        for _ in 0..states {
            for _ in 0..letters {
                let next = draw(&mut seed, states as u32);
                let reply = draw(&mut seed, 9) / 8;
                rows.push((next, reply))?;
            }
        }
        let fsm = machine(&rt, alloc, letters, rows.as_slice())?;
        if !fsm.all_reached(alloc)? {
            continue;
        }
        tried = tried.wrapping_add(1);
        let reduced = reduce_and_compare(&rt, alloc, &fsm)?;
        let told = told_pairs(&rt, &fsm);
        let image = reduced.image.as_slice();
        assert!(rt; image.len() <= 8);
        for s in 0..image.len() {
            for t in 0..image.len() {
                assert_eq!(rt; image[s] != image[t], told[s * 8 + t], "{start}: {s} {t}");
            }
        }
    }
    assert!(rt; tried > 50);
    Ok(())
}
