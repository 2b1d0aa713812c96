//! Calls of the program over texts in memory: the status, and what is put to `out` and `err`.
ghost use Rattle.std.specs.Prelude.{◌<◌, All, IfOk};
ghost use Rattle.test_world.specs.Count.{greatest_count};

mod answers;
mod classes;
mod edges;
mod failing;
mod faults;
mod gens;
mod order;
mod replays;
mod runs;
mod suites;

use crate::top::classtest;
use std::alloc::{AllocError, Global};
use std::process::Abort;
use std::test::Fail;
use test_world::{MemShelf, MemSink};

const CHART: &str =
    "chart 1\ninput v 0 10\noutput alarm 0\nstate Low start\nstate High\non Low when v >= 8 do alarm = 1 go High\non High when v <= 5 do alarm = 0 go Low\n";

/// The same chart where something is assumed of its input.
const CHART_ASSUMING: &str =
    "chart 2\ninput v 0 10\nassume v >= 6\noutput alarm 0\nstate Low start\nstate High\non Low when v >= 8 do alarm = 1 go High\non High when v <= 5 do alarm = 0 go Low\n";

/// A speed monitor.
const MONITOR: &str =
    "chart 1\ninput v 0 4000\ninput lim 0 4000\noutput warn 0\noutput brake 0\nstate Normal start\nstate Over\nstate Warning\nstate Braking\non Normal when v > lim + 100 do warn = 1, brake = 1 go Braking\non Normal when v > lim + 50 do warn = 1 go Warning\non Normal when v > lim go Over\non Over when v > lim + 100 do warn = 1, brake = 1 go Braking\non Over when v > lim + 50 do warn = 1 go Warning\non Over when v <= lim go Normal\non Warning when v > lim + 100 do brake = 1 go Braking\non Warning when v <= lim do warn = 0 go Normal\non Braking when v = 0 do warn = 0, brake = 0 go Normal\n";

/// Charts and words by their names.
const TEXTS: [(&str, &str); 27] = [
    ("A", CHART),
    ("W", "3\n8\n6\n5\n"),
    ("empty", ""),
    ("-", CHART),
    ("eleven", "11\n"),
    ("five", "8\n5\n"),
    ("eight", "8\n6\n"),
    ("A2", CHART_ASSUMING),
    (
        "cut",
        "chart 1\ninput v 0 10\noutput alarm 0\nstate Low start\nstate High\non Low when v >=\n",
    ),
    (
        "wide",
        "chart 1\ninput v 0 1000001\noutput alarm 0\nstate Low start\nstate High\non Low when v >= 8 do alarm = 1 go High\non High when v <= 5 do alarm = 0 go Low\n",
    ),
    (
        "back",
        "chart 1\ninput v 5 4\noutput alarm 0\nstate Low start\nstate High\non Low when v >= 8 do alarm = 1 go High\non High when v <= 5 do alarm = 0 go Low\n",
    ),
    (
        "COUNT",
        "chart 1\ninput t 0 0\noutput c 0\nmemory n 0 3 0\nstate S start\non S do n = n + 1, c = n\n",
    ),
    ("zeros", "0\n0\n0\n0\n"),
    (
        "NEST",
        "chart 1\ninput x 0 1\noutput o 0\nstate P start\nstate A in P start\nstate B in P\nstate Q\nentry B do o = 2\nexit A do o = 1\non A when x = 1 do o = 5 go B\non P when x >= 0 do o = 9 go Q\n",
    ),
    ("ones", "1\n1\n0\n"),
    (
        "V",
        "chart 1\ninput v -1000000 1000000\noutput o 0\nstate S start\non S when 1000000*v + 1000000*v >= 1 do o = 1\n",
    ),
    ("01", "0\n1\n"),
    (
        "PARITY",
        "chart 1\ninput a 0 3\ninput b 0 3\noutput o 0\nstate S start\non S when 2*a = 2*b + 1 do o = 1\n",
    ),
    ("pairs", "1 0\n3 2\n"),
    (
        "P2",
        "chart 2\ninput a 0 3\ninput b 0 3\nassume a - a >= 1\noutput o 0\nstate S start\non S when 2*a = 2*b + 1 do o = 1\n",
    ),
    (
        "P2odd",
        "chart 2\ninput a 0 3\ninput b 0 3\nassume 2*a = 2*b + 1\noutput o 0\nstate S start\non S when 2*a = 2*b + 1 do o = 1\n",
    ),
    ("MON", MONITOR),
    ("speeds", "0 0\n201 100\n101 100\n0 0\n"),
    (
        "HIST",
        "chart 3\ninput x 0 2\noutput o 0\nstate P start\nstate A in P start\nstate B in P\nstate Q\nentry A do o = 1\nentry B do o = 2\nentry Q do o = 9\non A when x = 1 go B\non P when x = 2 go Q\non Q when x = 1 go P history\non Q when x = 2 go P\n",
    ),
    ("way", "0\n1\n2\n1\n2\n2\n2\n1\n"),
    (
        "H2",
        "chart 2\ninput x 0 2\noutput o 0\nstate P start\nstate A in P start\nstate B in P\nstate Q\nentry A do o = 1\nentry B do o = 2\nentry Q do o = 9\non A when x = 1 go B\non P when x = 2 go Q\non Q when x = 1 go P history\non Q when x = 2 go P\n",
    ),
    (
        "H3",
        "chart 3\ninput x 0 2\noutput o 0\nstate P start\nstate A in P start\nstate B in P\nstate Q\nentry A do o = 1\nentry B do o = 2\nentry Q do o = 9\non A when x = 1 go B\non P when x = 2 go Q\non Q when x = 1 go A history\non Q when x = 2 go P\n",
    ),
];

/// How the world of a call behaves: the most bytes of a pull and a put, and the numbers of the calls of the shelf, of
/// `out` and of `err` that fail, where 0 is the number of none.
#[derive(Clone, Copy)]
struct World {
    chunk: usize,
    shelf: u64,
    out: u64,
    err: u64,
    ghost chunk_some: { 0 < chunk },
    ghost shelf_number: { shelf < greatest_count },
    ghost out_number: { out < greatest_count },
    ghost err_number: { err < greatest_count },
}

#[derive(Drop)]
struct Outcome {
    status: u8,
    out: Vec<u8>,
    err: Vec<u8>,
}

fn only(alloc: Global, number: u64) -> Result<Vec<u64>, AllocError>
    requires { number < greatest_count }
    ensures { IfOk result (λ bad. All (λ n. n < greatest_count) bad.items) }
{
    [number].to_vec(alloc)
}

fn held(alloc: Global, pairs: &[(&str, &str)]) -> Result<Vec<(String, Vec<u8>)>, AllocError> {
    let mut texts = Vec::new(alloc);
    for (name, text) in pairs {
        let text = (
            String::from_str(alloc, name)?,
            text.as_bytes().to_vec(alloc)?,
        );
        texts.push(text)?;
    }
    Ok(texts)
}

fn words_of(alloc: Global, line: &str) -> Result<Vec<String>, AllocError> {
    let mut words = Vec::new(alloc);
    for word in line.split(' ') {
        words.push(String::from_str(alloc, word)?)?;
    }
    Ok(words)
}

fn sink(alloc: Global, world: World, bad: u64) -> Result<MemSink, AllocError>
    requires { bad < greatest_count }
{
    MemSink::new(alloc, 4_096, only(alloc, bad)?, world.chunk)
}

/// What the program does with these words, over these texts.
fn called(
    alloc: Global,
    line: &str,
    texts: &[(&str, &str)],
    world: World,
) -> Result<Outcome, AllocError> {
    let words = words_of(alloc, line)?;
    let mut shelf = MemShelf::new(held(alloc, texts)?, only(alloc, world.shelf)?, world.chunk);
    let mut out = sink(alloc, world, world.out)?;
    let mut err = sink(alloc, world, world.err)?;
    let status = classtest(alloc, words.as_slice(), &mut shelf, &mut out, &mut err);
    Ok(Outcome {
        status,
        out: out.taken().to_vec(alloc)?,
        err: err.taken().to_vec(alloc)?,
    })
}

/// What the program does with these words, over these texts, where `out` has room for so many bytes.
fn called_with_room(
    alloc: Global,
    line: &str,
    texts: &[(&str, &str)],
    room: usize,
) -> Result<Outcome, AllocError> {
    let words = words_of(alloc, line)?;
    let mut shelf = MemShelf::new(held(alloc, texts)?, only(alloc, 0)?, 4_096);
    let mut out = MemSink::new(alloc, room, only(alloc, 0)?, 4_096)?;
    let mut err = sink(alloc, smooth(4_096), 0)?;
    let status = classtest(alloc, words.as_slice(), &mut shelf, &mut out, &mut err);
    Ok(Outcome {
        status,
        out: out.taken().to_vec(alloc)?,
        err: err.taken().to_vec(alloc)?,
    })
}

/// How many lines of a text begin so.
fn lines_with(text: &[u8], front: &[u8]) -> usize {
    text.split(|byte| *byte == b'\n')
        .filter(|line| line.starts_with(front))
        .count()
}

/// What is expected of a call: its status, and what `out` and `err` took.
#[derive(Clone, Copy)]
struct Expected<'a> {
    status: u8,
    out: &'a str,
    err: &'a str,
}

/// Calls the program, and compares what it did.
fn check(
    rt: &impl Abort,
    alloc: Global,
    line: &str,
    texts: &[(&str, &str)],
    world: World,
    expected: Expected,
) -> Result<(), AllocError> {
    let got = called(alloc, line, texts, world)?;
    let (out, err) = (expected.out, expected.err);
    assert_eq!(rt; got.out.as_slice(), out.as_bytes(), "{line}: {err}");
    assert_eq!(rt; got.err.as_slice(), err.as_bytes(), "{line}: {err}");
    assert_eq!(rt; got.status, expected.status, "{line}: {err}");
    Ok(())
}

/// A world in which all calls succeed, with pieces of at most so many bytes.
fn smooth(chunk: usize) -> World
    requires { 0 < chunk }
{
    World {
        chunk,
        shelf: 0,
        out: 0,
        err: 0,
    }
}

/// Calls the program where all calls succeed, and compares what it did, where `out` takes nothing.
fn check_no_output(
    rt: &impl Abort,
    alloc: Global,
    line: &str,
    texts: &[(&str, &str)],
    status: u8,
    err: &str,
) -> Result<(), AllocError> {
    let out = "";
    let expected = Expected { status, out, err };
    check(rt, alloc, line, texts, smooth(4_096), expected)
}

/// The words; the status; what is put to `out` and to `err`.
#[derive(Clone, Copy)]
struct Row {
    line: &'static str,
    status: u8,
    out: &'static str,
    err: &'static str,
}

/// A run that passes.
const fn pass(line: &'static str) -> Row {
    Row {
        line,
        status: 0,
        out: "pass\n",
        err: "",
    }
}

/// A run that fails.
const fn fail(line: &'static str, out: &'static str) -> Row {
    Row {
        line,
        status: 1,
        out,
        err: "",
    }
}

/// A call that is refused.
const fn refused(line: &'static str, status: u8, err: &'static str) -> Row {
    Row {
        line,
        status,
        out: "",
        err,
    }
}

/// Calls the program with whole pieces and with pieces of one byte, and compares what it did.
fn check_rows(
    rt: &impl Abort,
    alloc: Global,
    texts: &[(&str, &str)],
    rows: &[Row],
) -> Result<(), AllocError> {
    for row in rows {
        let Row {
            line,
            status,
            out,
            err,
        } = *row;
        let expected = Expected { status, out, err };
        check(rt, alloc, line, texts, smooth(4_096), expected)?;
        check(rt, alloc, line, texts, smooth(1), expected)?;
    }
    Ok(())
}

/// A text with a piece that is repeated, where a piece may have a number in it.
#[derive(Clone, Copy)]
struct Pieces<'a> {
    front: &'a str,
    piece: &'a str,
    numbered: bool,
    end: &'a str,
    back: &'a str,
}

fn repeated(alloc: Global, text: Pieces, count: usize) -> Result<String, AllocError> {
    let mut whole = String::from_str(alloc, text.front)?;
    for number in 0..count {
        whole.push_str(text.piece)?;
        if text.numbered {
            write!(whole, "{number}")?;
        }
        whole.push_str(text.end)?;
    }
    whole.push_str(text.back)?;
    Ok(whole)
}
