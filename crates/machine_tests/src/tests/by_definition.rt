//! Cover and marks by their definitions: all words of up to a length in shortlex order are tried.
ghost use Rattle.std.specs.Prelude.{◌<◌};

use super::*;

/// All words of at most so many letters, in shortlex order.
fn words_upto(alloc: Global, letters: u16, longest: usize) -> Result<Vec<Vec<u16>>, AllocError> {
    let mut words = Vec::new(alloc);
    let mut of_one_length = Vec::new(alloc);
    of_one_length.push(Vec::new(alloc))?;
    for _ in 0..longest {
        let mut longer = Vec::new(alloc);
        for word in of_one_length {
            for letter in 0..letters {
                let mut next: Vec<u16> = word.clone()?;
                next.push(letter)?;
                longer.push(next)?;
            }
            words.push(word)?;
        }
        of_one_length = longer;
    }
    for word in of_one_length {
        words.push(word)?;
    }
    Ok(words)
}

/// The state after a word.
fn after(rt: &impl Abort, fsm: &Fsm, state: usize, word: &[u16]) -> usize {
    let mut at = state;
    for letter in word {
        assert!(rt; at < fsm.states() && (*letter as usize) < fsm.letters());
        at = fsm.step(at, *letter).0;
    }
    at
}

/// The numbers of the replies to a word.
fn replies(
    rt: &impl Abort,
    alloc: Global,
    fsm: &Fsm,
    state: usize,
    word: &[u16],
) -> Result<Vec<usize>, AllocError> {
    let mut numbers = Vec::new(alloc);
    let mut at = state;
    for letter in word {
        assert!(rt; at < fsm.states() && (*letter as usize) < fsm.letters());
        let (next, number) = fsm.step(at, *letter);
        numbers.push(number)?;
        at = next;
    }
    Ok(numbers)
}

/// Whether two states answer a word alike.
fn agree(
    rt: &impl Abort,
    alloc: Global,
    fsm: &Fsm,
    states: (usize, usize),
    word: &[u16],
) -> Result<bool, AllocError> {
    let first = replies(rt, alloc, fsm, states.0, word)?;
    let second = replies(rt, alloc, fsm, states.1, word)?;
    Ok(first.as_slice() == second.as_slice())
}

/// The words that are the first to lead to a state.
fn first_words(
    rt: &impl Abort,
    alloc: Global,
    fsm: &Fsm,
    words: &[Vec<u16>],
) -> Result<Vec<Vec<u16>>, AllocError> {
    let mut states = Vec::new(alloc);
    let mut first = Vec::new(alloc);
    for word in words {
        let state = after(rt, fsm, 0, word.as_slice());
        if !states.as_slice().contains(&state) {
            states.push(state)?;
            first.push(word.clone()?)?;
        }
    }
    Ok(first)
}

/// Whether two states answer all marks alike.
fn agree_on_all(
    rt: &impl Abort,
    alloc: Global,
    fsm: &Fsm,
    states: (usize, usize),
    marks: &[Vec<u16>],
) -> Result<bool, AllocError> {
    for mark in marks {
        if !agree(rt, alloc, fsm, states, mark.as_slice())? {
            return Ok(false);
        }
    }
    Ok(true)
}

/// The first pair of states that answer all marks alike.
fn first_pair(
    rt: &impl Abort,
    alloc: Global,
    fsm: &Fsm,
    states: &[usize],
    marks: &[Vec<u16>],
) -> Result<Option<(usize, usize)>, AllocError> {
    for (place, first) in states.iter().enumerate() {
        for second in &states[place + 1..] {
            if agree_on_all(rt, alloc, fsm, (*first, *second), marks)? {
                return Ok(Some((*first, *second)));
            }
        }
    }
    Ok(None)
}

/// The first word that two states answer differently.
fn first_difference(
    rt: &impl Abort,
    alloc: Global,
    fsm: &Fsm,
    states: (usize, usize),
    words: &[Vec<u16>],
) -> Result<Option<Vec<u16>>, AllocError> {
    for word in words {
        if !agree(rt, alloc, fsm, states, word.as_slice())? {
            return Ok(Some(word.clone()?));
        }
    }
    Ok(None)
}

/// The marks of these states, in the order of a cover.
fn marks_of(
    rt: &impl Abort,
    alloc: Global,
    fsm: &Fsm,
    states: &[usize],
    words: &[Vec<u16>],
) -> Result<Vec<Vec<u16>>, AllocError> {
    let mut marks = Vec::new(alloc);
    if states.len() == 1 {
        marks.push(Vec::new(alloc))?;
        return Ok(marks);
    }
    for _ in states {
        let Some(pair) = first_pair(rt, alloc, fsm, states, marks.as_slice())? else {
            break;
        };
        let Some(word) = first_difference(rt, alloc, fsm, pair, words)? else {
            break;
        };
        marks.push(word)?;
    }
    Ok(marks)
}

/// Compares cover and marks of a machine with those by definition, and gives the number of states of the reduced
/// machine. A machine that does not reach all its states is passed over.
fn compare(
    rt: &impl Abort,
    alloc: Global,
    letters: usize,
    rows: &[Row],
) -> Result<Option<usize>, AllocError> {
    let fsm = machine(rt, alloc, letters, rows)?;
    if !fsm.all_reached(alloc)? {
        return Ok(None);
    }
    let least = reduced(rt, alloc, &fsm)?;
    let words = words_upto(alloc, least.letters() as u16, least.states() - 1)?;
    let cover = first_words(rt, alloc, &least, words.as_slice())?;
    let mut states = Vec::new(alloc);
    for word in cover.as_slice() {
        states.push(after(rt, &least, 0, word.as_slice()))?;
    }
    let marks = marks_of(rt, alloc, &least, states.as_slice(), words.as_slice())?;
    let found = words_of(alloc, &least)?;
    assert_eq!(rt; found.cover.as_slice(), cover.as_slice(), "{rows:?}");
    assert_eq!(rt; found.marks.as_slice(), marks.as_slice(), "{rows:?}");
    Ok(Some(least.states()))
}

#[test]
fn all_machines_of_two_states(rt: HostRuntime) -> Result<(), Fail> {
    let alloc = rt.alloc();
    let mut of_one = 0u32;
    let mut of_two = 0u32;
    for number in 0..256usize {
        let digits = [number % 4, number / 4 % 4, number / 16 % 4, number / 64];
        let mut rows = Vec::new(alloc);
        for digit in digits {
            rows.push((digit / 2, digit % 2))?;
        }
        match compare(&rt, alloc, 2, rows.as_slice())? {
            None => {}
            Some(1) => of_one = of_one.wrapping_add(1),
            Some(_) => of_two = of_two.wrapping_add(1),
        }
    }
    // Three in four lead from the first state to the second; of these, one in four answers alike in both.
    assert_eq!(rt; of_one, 48);
    assert_eq!(rt; of_two, 144);
    Ok(())
}

/// The next number of a linear congruential sequence, below a limit.
fn draw(seed: &mut u32, limit: u32) -> usize
    requires { 0 < limit }
    ensures { result < limit }
{
    *seed = seed.wrapping_mul(1664525).wrapping_add(1013904223);
    ((*seed >> 16) % limit) as usize
}

#[test]
fn machines_of_up_to_five_states(rt: HostRuntime) -> Result<(), Fail> {
    let alloc = rt.alloc();
    let mut of_five = 0u32;
    for start in 0..400u32 {
        let mut seed = start;
        let states = 1 + draw(&mut seed, 5);
        let letters = 1 + draw(&mut seed, 3);
        let mut rows = Vec::new(alloc);
        for _ in 0..states {
            for _ in 0..letters {
                let next = draw(&mut seed, states as u32);
                let reply = draw(&mut seed, 9) / 8;
                rows.push((next, reply))?;
            }
        }
        if compare(&rt, alloc, letters, rows.as_slice())? == Some(5) {
            of_five = of_five.wrapping_add(1);
        }
    }
    assert!(rt; of_five > 10);
    Ok(())
}
