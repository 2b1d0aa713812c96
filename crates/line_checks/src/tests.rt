//! Guards among the tokens of a line.
use crate::{GuardError, InputScope, NameFault, guard_at, guard_end};
use lin_form::{Input, Inputs, Name, Names, Signature};
use line_tokens::line_tokens;
use std::alloc::{AllocError, Global};
use std::test::Fail;

/// Lines, the token where a guard is looked for, and the token after the guard and what is told of it.
const GUARDS: &str = "
v > 0 | 0 | 3 guard
when v > 0 and w < 3 gives 1 | 1 | 8 guard
v > 0 and | 0 | 3 guard
v > 0 or v | 0 | 3 guard
v > 0 + w or (not v = 1) and w != 2 | 0 | 16 guard
not not (v > 0) or w > 1 | 0 | 11 guard
(v > 0 | 0 | none Form
v + | 0 | none Form
v > 0 | 3 | none Form
 | 0 | none Form
v > 0 or x = 1 | 0 | 7 Unknown
x > 0 and (v | 0 | 3 Unknown
";

fn signature(alloc: Global) -> Result<Signature, AllocError> {
    let first = Input {
        name: Name::from_bytes(b"v"),
        lo: 0,
        hi: 9,
    };
    let second = Input {
        name: Name::from_bytes(b"w"),
        lo: 0,
        hi: 9,
    };
    let inputs = vec![in alloc; first, second]?;
    let outputs = vec![in alloc; Name::from_bytes(b"o")]?;
    Ok(Signature {
        inputs: Inputs::from_vec(inputs),
        outputs: Names::from_vec(outputs),
    })
}

fn answer(
    alloc: Global,
    signature: &Signature,
    line: &str,
    at: usize,
) -> Result<String, AllocError> {
    let mut told = String::new(alloc);
    let Ok(tokens) = line_tokens(alloc, line.as_bytes()) else {
        return Ok(told);
    };
    match guard_end(line.as_bytes(), tokens.as_slice(), at) {
        Some(end) => write!(told, "{end} ")?,
        None => told.push_str("none ")?,
    }
    let scope = InputScope { signature };
    match guard_at(alloc, line.as_bytes(), tokens.as_slice(), at, &scope, 2) {
        Ok(_) => told.push_str("guard")?,
        Err(GuardError::Form) => told.push_str("Form")?,
        Err(GuardError::Comparisons) => told.push_str("Comparisons")?,
        Err(GuardError::Fault(NameFault::Unknown)) => told.push_str("Unknown")?,
        Err(GuardError::Fault(NameFault::Misuse)) => told.push_str("Misuse")?,
        Err(GuardError::Memory) => return Err(AllocError),
    }
    Ok(told)
}

#[test]
fn guards(rt: HostRuntime) -> Result<(), Fail> {
    let signature = signature(rt.alloc())?;
    for row in GUARDS.lines() {
        let Some((line, rest)) = row.split_once(" | ") else {
            assert!(rt; row.is_empty(), "no row: {row}");
            continue;
        };
        let Some((at, want)) = rest.split_once(" | ") else {
            assert!(rt; false, "no row: {row}");
            continue;
        };
        let Ok(at) = at.parse::<usize>() else {
            assert!(rt; false, "no place: {row}");
            continue;
        };
        let found = answer(rt.alloc(), &signature, line, at)?;
        assert_eq!(rt; found.as_str(), want, "{row}");
    }
    Ok(())
}

#[test]
fn comparisons(rt: HostRuntime) -> Result<(), Fail> {
    let signature = signature(rt.alloc())?;
    for (count, want) in [(63, "255 guard"), (64, "259 Comparisons")] {
        let mut line = String::from_str(rt.alloc(), "v > 0")?;
        for _ in 0..count {
            line.push_str(" or v > 0")?;
        }
        let found = answer(rt.alloc(), &signature, line.as_str(), 0)?;
        assert_eq!(rt; found.as_str(), want);
    }
    Ok(())
}
