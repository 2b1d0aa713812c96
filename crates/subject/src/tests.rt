//! Finite maps with answers that were worked out by hand, and a lamp, on which the definitions are tried.
ghost use Rattle.std.specs.Prelude.{◌≡◌, ◌↔◌, pos, [], ◌∷◌, IfOk, IsTrue};
ghost use Rattle.std.specs.List.{All};
ghost use Rattle.lin_form.specs.Signature.{IsInInputRanges, ranges_of};
ghost use Rattle.subject.specs.inside.Examples.{entry, lamp};

mod definitions;

use super::*;
use lin_form::{Input, Inputs, Name, Names, Reply, Signature, Vector};
use std::alloc::{AllocError, Global};
use std::process::Abort;
use std::test::Fail;

/// A state, an input, the next state and the reply.
type Row = (u32, i64, u32, &'static [i64]);

/// Inputs, and the reply to each.
type Answers = (&'static [i64], &'static [&'static [i64]]);

fn name(rt: &impl Abort, text: &str) -> Name {
    assert!(rt; Name::is_name(text.as_bytes()));
    Name::from_bytes(text.as_bytes())
}

/// One input from 0 to a number, and one output.
fn signature(rt: &impl Abort, alloc: Global, most: u32) -> Result<Signature, AllocError>
    ensures { IfOk result (λ signature. ranges_of signature.inputs ≡ (pos 0, pos most) ∷ []) }
{
    assert!(rt; most <= 1_000_000);
    let button = Input {
        name: name(rt, "button"),
        lo: 0,
        hi: most as i64,
    };
    let inputs = vec![in alloc; button]?;
    let outputs = vec![in alloc; name(rt, "light")]?;
    Ok(Signature {
        inputs: Inputs::from_vec(inputs),
        outputs: Names::from_vec(outputs),
    })
}

fn cases(rt: &impl Abort, alloc: Global, rows: &[Row]) -> Result<Cases, AllocError> {
    let mut entries = Vec::new(alloc);
    for (state, input, next, reply) in rows {
        assert!(rt; reply.len() <= 8);
        entries.push(Case {
            state: *state,
            input: Vector::from_slice(alloc, &[*input]),
            next: *next,
            reply: Reply::from_slice(reply),
        })?;
    }
    Ok(Cases::new(signature(rt, alloc, 2)?, entries))
}

/// Whether each vector is in the signature's ranges.
fn are_in_ranges(signature: &Signature, word: &[Vector]) -> bool
    ensures { IsTrue result ↔ All (IsInInputRanges signature.now.inputs) word.now }
{
    word.iter().all(|vector| signature.inputs.contains(vector))
}

/// Compares a plan's answer to a word with the one that is wanted.
fn expect<P: Plan>(rt: &impl Abort, alloc: Global, plan: &P, wanted: Answers) -> Result<(), Fail> {
    let mut word = Vec::new(alloc);
    for number in wanted.0 {
        word.push(Vector::from_slice(alloc, &[*number]))?;
    }
    assert!(rt; are_in_ranges(plan.signature(), word.as_slice()));
    let replies = answers(alloc, plan, word.as_slice())?;
    assert_eq!(rt; replies.len(), wanted.1.len());
    for (reply, want) in replies.iter().zip(wanted.1) {
        assert_eq!(rt; reply.as_slice(), *want, "{:?}", wanted.0);
    }
    Ok(())
}

// In 0 the input 1 has two entries, of which the first counts. In 1 the input 2 leads to a state without entries. An
// entry may have the empty list as its reply, or one of two numbers.
const ROWS: [Row; 5] = [
    (0, 1, 1, &[10]),
    (0, 1, 2, &[20]),
    (1, 1, 0, &[]),
    (1, 2, 4_294_967_295, &[7, -7]),
    (2, 1, 0, &[30]),
];

#[test]
fn first_entries_count(rt: HostRuntime) -> Result<(), Fail> {
    let words: [Answers; 6] = [
        (&[], &[]),
        (&[0], &[&[]]),
        (&[1], &[&[10]]),
        (&[0, 1, 0, 1, 1], &[&[], &[10], &[], &[], &[10]]),
        (&[1, 2, 1, 2, 0], &[&[10], &[7, -7], &[], &[], &[]]),
        (
            &[2, 2, 1, 1, 1, 2],
            &[&[], &[], &[10], &[], &[10], &[7, -7]],
        ),
    ];
    let plan = cases(&rt, rt.alloc(), &ROWS)?;
    for wanted in words {
        expect(&rt, rt.alloc(), &plan, wanted)?;
    }
    let empty = cases(&rt, rt.alloc(), &[])?;
    expect(&rt, rt.alloc(), &empty, (&[1, 1], &[&[], &[]]))
}

/// An entry with one number as its input, and one as its reply.
fn press(alloc: Global, state: u32, input: u32, next: u32, reply: u32) -> Case
    ensures { result ≡ entry state input next reply }
{
    Case {
        state,
        input: Vector::from_slice(alloc, &[input as i64]),
        next,
        reply: Reply::from_slice(&[reply as i64]),
    }
}

/// A lamp whose button turns it on and off in two positions, 1 and 2.
fn lamp(rt: &impl Abort, alloc: Global) -> Result<Cases, AllocError>
    ensures entries { IfOk result (λ cases. cases.entries ≡ lamp) }
    ensures ranges { IfOk result (λ cases. ranges_of cases.signature.inputs ≡ (pos 0, pos 2) ∷ []) }
{
    let entries = vec![in alloc;
        press(alloc, 0, 1, 1, 1),
        press(alloc, 0, 2, 1, 1),
        press(alloc, 1, 1, 0, 0),
        press(alloc, 1, 2, 0, 0),
        press(alloc, 0, 1, 7, 9),
    ]?;
    Ok(Cases::new(signature(rt, alloc, 2)?, entries))
}

/// A button with one position, which does nothing.
fn silent(rt: &impl Abort, alloc: Global) -> Result<Cases, AllocError>
    ensures entries { IfOk result (λ cases. cases.entries ≡ []) }
    ensures ranges { IfOk result (λ cases. ranges_of cases.signature.inputs ≡ (pos 0, pos 0) ∷ []) }
{
    Ok(Cases::new(signature(rt, alloc, 0)?, Vec::new(alloc)))
}

#[test]
fn a_button_that_does_nothing(rt: HostRuntime) -> Result<(), Fail> {
    let plan = silent(&rt, rt.alloc())?;
    definitions::button_is_as_defined(&plan);
    expect(&rt, rt.alloc(), &plan, (&[0], &[&[]]))
}

#[test]
fn a_lamp(rt: HostRuntime) -> Result<(), Fail> {
    let words: [Answers; 3] = [
        (&[1, 0, 1, 1], &[&[1], &[], &[0], &[1]]),
        (&[1, 0, 2, 1], &[&[1], &[], &[0], &[1]]),
        (&[1, 0, 0, 1], &[&[1], &[], &[], &[0]]),
    ];
    let plan = lamp(&rt, rt.alloc())?;
    definitions::classes_are_as_defined();
    definitions::lamp_is_as_defined(&plan);
    definitions::domain_is_as_defined(&plan);
    for wanted in words {
        expect(&rt, rt.alloc(), &plan, wanted)?;
    }
    Ok(())
}
