//! Machines as lists of rows, and the words that the layers find for them.
ghost use Rattle.std.specs.Prelude.{IfOk};
ghost use Rattle.fsm_core.specs.Answers.{AllReached, IsReduced};
ghost use Rattle.word_pool.specs.Words.{AreIds};

mod building;
mod by_definition;
mod cover_and_marks;

use charset::charset;
use fsm_core::Fsm;
use lin_form::Reply;
use reduction::reduce;
use state_cover::cover;
use std::alloc::{AllocError, Global};
use std::process::Abort;
use std::test::Fail;
use suite_build::{BuildError, Letters, build, steps_of};
use word_pool::{Pool, WordId};

/// The next state and the number of the reply.
type Row = (usize, usize);

/// The letters of a word.
type Word = &'static [u16];

// Machines of charts, whose letters are the classes of their inputs. Replies are numbered as they occur.

/// A speed alarm with the states Low and High.
const ALARM: [Row; 6] = [(0, 0), (0, 0), (1, 1), (0, 0), (1, 1), (1, 1)];

/// The same where its input is 6 or more.
const ALARM_FROM_6: [Row; 4] = [(0, 0), (1, 1), (1, 1), (1, 1)];

/// A speed monitor with the states Normal, Warning and Braking, to which a fourth, Over, acts like Normal.
const MONITOR: [Row; 15] = [
    (0, 0),
    (0, 0),
    (0, 0),
    (1, 1),
    (2, 2),
    (0, 0),
    (0, 0),
    (1, 1),
    (1, 1),
    (2, 2),
    (0, 0),
    (2, 2),
    (2, 2),
    (2, 2),
    (2, 2),
];

/// A chart with shallow history: in A, in B, outside after A, outside after B.
const HISTORY: [Row; 12] = [
    (0, 0),
    (1, 1),
    (2, 2),
    (1, 1),
    (1, 1),
    (3, 2),
    (2, 2),
    (0, 0),
    (0, 0),
    (3, 2),
    (1, 1),
    (0, 0),
];

/// A chart of one state and one class.
const ONE: [Row; 1] = [(0, 0)];

/// The machine of these rows, whose reply with the number n is the one number n.
fn machine(
    rt: &impl Abort,
    alloc: Global,
    letters: usize,
    rows: &[Row],
) -> Result<Fsm, AllocError> {
    let mut replies = Vec::new(alloc);
    for number in 0..3 {
        replies.push(Reply::from_slice(&[number]))?;
    }
    let rows = Vec::from_slice(alloc, rows)?;
    assert!(rt; Fsm::is_machine(letters, rows.as_slice(), replies.as_slice()));
    Ok(Fsm::new(letters, rows, replies))
}

/// The reduced machine of one that reaches all its states.
fn reduced(rt: &impl Abort, alloc: Global, fsm: &Fsm) -> Result<Fsm, AllocError>
    ensures reached { IfOk result (λ m. AllReached m) }
    ensures reduced { IfOk result (λ m. IsReduced m) }
{
    assert!(rt; fsm.all_reached(alloc)?);
    Ok(reduce(alloc, fsm)?.fsm)
}

/// The letters of words of a pool.
fn lists_at(alloc: Global, pool: &Pool, ids: &[WordId]) -> Result<Vec<Vec<u16>>, AllocError>
    requires { AreIds pool.now.words ids.now }
{
    let mut words = Vec::new(alloc);
    for id in ids {
        let mut letters = vec![in alloc; 0; pool.length(*id)]?;
        pool.letters(*id, letters.as_mut_slice());
        words.push(letters)?;
    }
    Ok(words)
}

/// The words of a state cover and its marks.
#[derive(Drop)]
struct Words {
    cover: Vec<Vec<u16>>,
    marks: Vec<Vec<u16>>,
}

/// The cover and the marks of a machine.
fn words_of(alloc: Global, fsm: &Fsm) -> Result<Words, AllocError>
    requires reached { AllReached fsm.now }
    requires reduced { IsReduced fsm.now }
{
    let _states = fsm.states();
    let mut pool = Pool::new(alloc)?;
    let words = cover(alloc, fsm, &mut pool)?;
    let cover = lists_at(alloc, &pool, words.words())?;
    let marks = charset(alloc, fsm, &words, &mut pool)?;
    let marks = lists_at(alloc, &pool, marks.words())?;
    Ok(Words { cover, marks })
}

/// Compares words with those that are expected.
fn check_words(rt: &impl Abort, about: &str, found: &[Vec<u16>], want: &[Word]) {
    assert_eq!(rt; found.len(), want.len(), "{about}");
    for (word, expected) in found.iter().zip(want) {
        assert_eq!(rt; word.as_slice(), *expected, "{about}");
    }
}
