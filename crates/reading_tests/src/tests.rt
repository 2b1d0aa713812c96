//! Texts that are read or refused.

mod forms;
mod later;

use std::alloc::{AllocError, Global};
use std::process::Abort;
use std::test::Fail;
use suite_model::Scratch;
use suite_reader::{SuiteError, read_suite};
use suite_reading::{Cause, SuiteKind};
use suite_text::write_suite;
use test_world::MemSink;

/// The suite that a speed alarm has for two states: 30 lines.
const WHOLE: &str =
    "suite 1\ninput v 0 10\noutput alarm\nbound 2\nstates 2\nclass 0\nclass 6\nclass 8\ncover\ncover 3\n\
mark 2\ntest 1 2\n0 / 0\n6 / 0\ntest 2 2\n6 / 0\n6 / 0\ntest 3 1 2\n8 / 1\n0 / 0\n6 / 0\n\
test 3 2 2\n8 / 1\n6 / 1\n6 / 1\ntest 3 3 2\n8 / 1\n8 / 1\n6 / 1\nend 5\n";

/// The lines from `first` to `last`, counted from 1, are `text` instead; then the line `at` is refused.
#[derive(Drop)]
struct Case {
    first: usize,
    last: usize,
    text: &'static str,
    at: usize,
    cause: Cause,
}

/// A text, with other lines in place of some of it.
fn changed(alloc: Global, whole: &[u8], case: &Case) -> Result<Vec<u8>, AllocError> {
    let mut text = Vec::new(alloc);
    let mut line = 1;
    let mut is_put = false;
    for byte in whole {
        if line == case.first && !is_put {
            text.extend_from_slice(case.text.as_bytes())?;
            is_put = true;
        }
        if line < case.first || case.last < line {
            text.push(*byte)?;
        }
        if *byte == b'\n' && line < 1_000 {
            line += 1;
        }
    }
    Ok(text)
}

/// Reads a text that is refused.
fn check_refused(rt: &impl Abort, alloc: Global, text: &[u8], at: usize, cause: Cause) {
    assert!(rt; text.len() <= 16_777_216);
    let met = match read_suite(alloc, text) {
        Ok(_) => panic!(rt; "line {at} passes"),
        Err(SuiteError::Fault { line, kind }) => (line, Cause::Fault(kind)),
        Err(SuiteError::Limit { line, which }) => (line, Cause::Limit(which)),
        Err(SuiteError::Memory) => panic!(rt; "no memory"),
    };
    assert_eq!(rt; met, (at, cause));
}

/// Reads the texts of the cases.
fn check_cases(
    rt: &impl Abort,
    alloc: Global,
    whole: &[u8],
    cases: &[Case],
) -> Result<(), AllocError> {
    for case in cases {
        let text = changed(alloc, whole, case)?;
        check_refused(rt, alloc, &text, case.at, case.cause);
    }
    Ok(())
}

/// Reads a text and writes the suite again.
fn check_read(rt: &impl Abort, alloc: Global, text: &[u8]) -> Result<(), AllocError> {
    assert!(rt; text.len() <= 16_777_216);
    let suite = match read_suite(alloc, text) {
        Ok(suite) => suite,
        Err(error) => panic!(rt; "{error:?}"),
    };
    let mut scratch = Scratch::for_suite(alloc, &suite)?;
    let mut sink = MemSink::new(alloc, 1_000, Vec::new(alloc), 10_000)?;
    assert!(rt; write_suite(&suite, &mut scratch, &mut sink).is_ok());
    assert_eq!(rt; sink.taken(), text);
    Ok(())
}

/// Reads each front of a text: it is refused at the line in which it is cut, or at the one that does not begin.
fn check_fronts(rt: &impl Abort, alloc: Global, text: &[u8]) {
    let mut line = 1;
    for (length, byte) in text.iter().enumerate() {
        check_refused(
            rt,
            alloc,
            &text[..length],
            line,
            Cause::Fault(SuiteKind::End),
        );
        if *byte == b'\n' && line < 1_000 {
            line += 1;
        }
    }
}

#[test]
fn cut_off(rt: HostRuntime) {
    check_fronts(&rt, rt.alloc(), WHOLE.as_bytes());
}

#[test]
fn written_again(rt: HostRuntime) -> Result<(), Fail> {
    check_read(&rt, rt.alloc(), WHOLE.as_bytes())?;
    Ok(())
}

/// Each number at its limit.
const LARGEST: &str =
    "suite 1\ninput a2345678901234567890123456789012 -1000000 1000000\noutput _\nbound 1024\n\
states 1\nclass -1000000\ncover\nmark\ntest 1\n-1000000 / 1000000000000\nend 1\n";

/// Tests in another order, and one of them twice.
const TWICE: &str =
    "suite 1\ninput v 0 10\ninput w -1 1\noutput o\noutput p\nbound 2\nstates 1\nclass 0 -1\n\
class 6 1\ncover\nmark 2\ntest 2 1\n6 1 / 0 -3\n0 -1 / 2 2\ntest 1\n0 -1 / 7 8\ntest 2 1\n6 1 / 0 -3\n\
0 -1 / 2 2\nend 3\n";

/// A test that stops within another, and one that goes on after it.
const PREFIXES: &str =
    "suite 1\ninput v 0 0\noutput o\nbound 1\nstates 1\nclass 0\ncover\nmark\nmark 1\n\
test 1 1\n0 / 1\n0 / 2\ntest 1\n0 / 1\ntest 1 1 1\n0 / 1\n0 / 2\n0 / 3\nend 3\n";

#[test]
fn in_any_order(rt: HostRuntime) -> Result<(), Fail> {
    check_read(&rt, rt.alloc(), LARGEST.as_bytes())?;
    check_read(&rt, rt.alloc(), TWICE.as_bytes())?;
    check_read(&rt, rt.alloc(), PREFIXES.as_bytes())?;
    Ok(())
}
