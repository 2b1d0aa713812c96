//! Words that are commands, and words that are none.
use crate::{Command, command_of};
use std::alloc::{AllocError, Global};
use std::process::Abort;
use std::test::Fail;

const PLAY: Option<Command> = Some(Command::Play);

const CUT: Option<Command> = Some(Command::Classes { cuts: true });

const UNCUT: Option<Command> = Some(Command::Classes { cuts: false });

/// The suite without cuts for a bound.
fn suite(bound: usize) -> Option<Command> {
    let cuts = false;
    Some(Command::Suite { bound, cuts })
}

/// The run without cuts for a bound.
fn run(bound: usize) -> Option<Command> {
    let cuts = false;
    Some(Command::Run { bound, cuts })
}

/// The chart of a number.
fn generated(number: u32) -> Option<Command> {
    Some(Command::Gen { number })
}

fn words_of(alloc: Global, line: &str) -> Result<Vec<String>, AllocError> {
    let mut words = Vec::new(alloc);
    for word in line.split(' ') {
        words.push(String::from_str(alloc, word)?)?;
    }
    Ok(words)
}

/// The same as JSON.
fn json(bound: usize) -> Option<Command> {
    let cuts = false;
    Some(Command::Json { bound, cuts })
}

/// What words are as a command, if they are one.
#[derive(Clone, Copy)]
struct Case<'a> {
    words: &'a str,
    command: Option<Command>,
}

fn is(words: &str, command: Option<Command>) -> Case {
    Case { words, command }
}

fn check(rt: &impl Abort, alloc: Global, cases: &[Case]) -> Result<(), AllocError> {
    for case in cases {
        let words = words_of(alloc, case.words)?;
        let line = case.words;
        assert!(rt; command_of(words.as_slice()) == case.command, "{line}");
    }
    Ok(())
}

#[test]
fn plays_and_classes(rt: HostRuntime) -> Result<(), Fail> {
    let cases = [
        is("play A W", PLAY),
        is("play A none", PLAY),
        is("play none -", PLAY),
        is("classes A none", UNCUT),
        is("classes A nones", CUT),
        is("classes - none", UNCUT),
        is("classes A ./none", CUT),
        is("classes A -", CUT),
        is("classes - -", None),
        is("classes A", None),
        is("classes  C", None),
        is("classes A ", None),
        is("Classes A C", None),
        is("", None),
    ];
    Ok(check(&rt, rt.alloc(), &cases)?)
}

#[test]
fn suites(rt: HostRuntime) -> Result<(), Fail> {
    let cut = Some(Command::Suite {
        bound: 12,
        cuts: true,
    });
    let cases = [
        is("suite A 1 none", suite(1)),
        is("suite A 0001 none", suite(1)),
        is("suite A 1024 none", suite(1024)),
        is("suite - 12 C", cut),
        is("suite A 1025 none", None),
        is("suite A 00001 none", None),
        is("suite A 0 none", None),
        is("suite A 0000 none", None),
        is("suite A +1 none", None),
        is("suite A -1 none", None),
        is("suite A - none", None),
        is("suite A x none", None),
        is("suite A 1x none", None),
        is("suite A  none", None),
        is("suite A 1", None),
        is("suite A 1 ", None),
        is("suite A 1 none none", None),
        is("suite - 2 -", None),
    ];
    Ok(check(&rt, rt.alloc(), &cases)?)
}

#[test]
fn runs(rt: HostRuntime) -> Result<(), Fail> {
    let cuts = true;
    let bound = 3;
    let cases = [
        is("run A 2 none A", run(2)),
        is("run A 0002 none none", run(2)),
        is("run - 1024 none A", run(1024)),
        is("run A 3 C -", Some(Command::Run { bound, cuts })),
        is("run - 2 - A", None),
        is("run - 2 none -", None),
        is("run A 2 none", None),
        is("run A 2 none ", None),
        is("run A 2 none A A", None),
        is("run A 1025 none A", None),
        is("run A 0 none A", None),
        is("run A none none A", None),
        is("json A 2 none A", json(2)),
        is("json A 3 C -", Some(Command::Json { bound, cuts })),
        is("json - 2 none -", None),
        is("json A 2 none", None),
        is("json A 0 none A", None),
    ];
    Ok(check(&rt, rt.alloc(), &cases)?)
}

#[test]
fn replays(rt: HostRuntime) -> Result<(), Fail> {
    let replay = Some(Command::Replay);
    let cases = [
        is("replay S A", replay),
        is("replay - none", replay),
        is("replay none -", replay),
        is("replay - -", None),
        is("replay S", None),
        is("replay S ", None),
        is("replay S A A", None),
        is("Replay S A", None),
    ];
    Ok(check(&rt, rt.alloc(), &cases)?)
}

#[test]
fn numbers(rt: HostRuntime) -> Result<(), Fail> {
    let cases = [
        is("gen 0", generated(0)),
        is("gen 37", generated(37)),
        is("gen 0000000038", generated(38)),
        is("gen 4294967295", generated(4_294_967_295)),
        is("gen 4294967296", None),
        is("gen 00000000038", None),
        is("gen", None),
        is("gen ", None),
        is("gen -", None),
        is("gen +1", None),
        is("gen 1 1", None),
        is("gen x", None),
    ];
    Ok(check(&rt, rt.alloc(), &cases)?)
}

// The verbs that stand in the table of places and are not built yet.
#[test]
fn no_commands_yet(rt: HostRuntime) -> Result<(), Fail> {
    let cases = [
        is("suite-wp A 2 none", None),
        is("domain A 2 none A", None),
        is("mutants A 2 none", None),
        is("ask A 2 none", None),
    ];
    Ok(check(&rt, rt.alloc(), &cases)?)
}
