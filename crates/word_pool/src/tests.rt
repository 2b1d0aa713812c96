ghost use Rattle.std.specs.Prelude.{◌<◌};

use super::*;
use std::collections::BTreeSet;
use std::test::Fail;

// Lists of 24 words of at most 7 letters, from a linear congruential sequence.
fn words_from(alloc: Global, seed: u32, letters: u16) -> Result<Vec<Vec<u16>>, AllocError>
    requires { 0 < letters }
{
    let mut state = seed;
    let mut words = Vec::new(alloc);
    for _ in 0..24 {
        state = state.wrapping_mul(1664525).wrapping_add(1013904223);
        let mut word = Vec::new(alloc);
        for _ in 0..(state >> 16) % 8 {
            state = state.wrapping_mul(1664525).wrapping_add(1013904223);
            word.push((state >> 16) as u16 % letters)?;
        }
        words.push(word)?;
    }
    Ok(words)
}

// The words of a sorted set that no other word of it goes on from.
fn ends_of(alloc: Global, set: &BTreeSet<Vec<u16>>) -> Result<Vec<Vec<u16>>, AllocError> {
    let mut ends = Vec::new(alloc);
    for word in set.iter() {
        let mut is_end = true;
        for other in set.iter() {
            if other.len() > word.len() && other.starts_with(word.as_slice()) {
                is_end = false;
            }
        }
        if is_end {
            ends.push(word.clone()?)?;
        }
    }
    Ok(ends)
}

#[test]
fn one_word_has_one_id(rt: HostRuntime) -> Result<(), Fail> {
    let mut pool = Pool::new(rt.alloc())?;
    let root = pool.root();
    let word = pool.extend(root, 2)?;
    let mut into = [7; 2];
    assert_eq!(rt; pool.letters(word, &mut into), 1);
    assert_eq!(rt; into, [2, 7]);
    assert_eq!(rt; pool.length(word), 1);
    assert_eq!(rt; pool.extend(root, 2)?, word);
    assert_eq!(rt; pool.words(), 2);

    pool.reserve(2)?;
    let first = pool.extend(word, 0)?;
    let second = pool.extend(first, 0)?;
    assert_eq!(rt; pool.length(second), 3);
    assert_eq!(rt; pool.words(), 4);
    Ok(())
}

#[test]
fn numbers_and_prefixes(rt: HostRuntime) -> Result<(), Fail> {
    let mut pool = Pool::new(rt.alloc())?;
    let root = pool.root();
    let a = pool.extend(root, 2)?;
    let b = pool.extend(a, 1)?;
    assert_eq!(rt; pool.words(), 3);
    assert_eq!(rt; pool.prefix(b, 1), a);
    assert_eq!(rt; pool.prefix(b, 0), root);
    assert_eq!(rt; pool.prefix(b, 2), b);
    assert_eq!(rt; pool.number(root), 0);
    assert_eq!(rt; pool.number(a), 1);
    assert_eq!(rt; pool.number(b), 2);
    assert_eq!(rt; pool.word(2), b);
    assert_eq!(rt; pool.last(a), 2);
    assert_eq!(rt; pool.last(b), 1);
    Ok(())
}

#[test]
fn agrees_with_a_sorted_set(rt: HostRuntime) -> Result<(), Fail> {
    let alloc = rt.alloc();
    for letters in [1, 2, 3, 5, 40, 65535] {
        for seed in 0..20 {
            let mut pool = Pool::new(alloc)?;
            let mut set = BTreeSet::new(alloc);
            for word in words_from(alloc, seed, letters)? {
                for length in 0..word.len() + 1 {
                    let _is_new = set.insert(Vec::from_slice(alloc, &word[..length])?)?;
                }
                assert!(rt; pool.words() < 1000 && word.len() < 1000);
                let root = pool.root();
                let id = pool.enter(root, word.as_slice())?;
                let mut into = [0; 7];
                assert!(rt; pool.length(id) <= 7);
                let count = pool.letters(id, &mut into);
                assert_eq!(rt; &into[..count], word.as_slice());
            }
            assert_eq!(rt; pool.words(), set.len());
            for number in 0..pool.words() {
                let id = pool.word(number);
                let mut into = [0; 7];
                assert!(rt; pool.length(id) <= 7);
                let count = pool.letters(id, &mut into);
                let word = Vec::from_slice(alloc, &into[..count])?;
                assert!(rt; set.contains(&word));
            }
            let ends = ends_of(alloc, &set)?;
            let ids = pool.walk(alloc)?;
            assert_eq!(rt; ids.len(), ends.len());
            for place in 0..ids.len() {
                let mut into = [0; 7];
                assert!(rt; pool.length(ids[place]) <= 7);
                let count = pool.letters(ids[place], &mut into);
                assert_eq!(rt; &into[..count], ends[place].as_slice());
            }
        }
    }
    Ok(())
}
