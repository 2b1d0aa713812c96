//! The refusals that `docs/FORMATS.md` shows, a row for each of its examples, in its order.
use super::describe::{chart_answer, chart_of};
use super::table::{Asked, check, text_of};
use std::alloc::{AllocError, Global};
use std::test::Fail;

/// The page's chart.
const CHART: &str = "chart 3
input v 0 9
assume v <= 8
output o 0
memory m 0 3 0
state P start
state A in P start
entry A do o = 1
on A when v >= 5 go P
";

/// Lines that are put into the chart, and what is told: the number of the first line, behind a `=` where it stands in place of
/// the line with this number, the lines, and ` | ` before the rest.
const PUT_IN: &str = "
10 on A when v & 1 | 10 Byte
10 on A when v > 1000001 | 10 limit Literal
10 on a23456789012345678901234567890123 | 10 limit NameBytes
10 on A do o = m{510: + m} | 10 limit Tokens
10 on A when {65:not }v = 1 | 10 limit Nesting
=1 chart 4 | 1 Version
10 row A | 10 NoSuchLine
=1 chart 1 | 3 NoSuchLine
10 state B | 10 Misplaced
10 on A when v >= | 10 Form
=7 state start | 7 Form
=3 assume v != 8 | 3 Form
10 on A when v = 0{64: or v = 0} | 10 limit Comparisons
=4 output v 0 | 4 Double
10 on A go C | 10 Unknown
10 on A when o = 1 | 10 Misuse
10 on A do v = 1 | 10 Misuse
10 on A do m = v | 10 Misuse
10 on P go A history | 10 Misuse
=2 input v 5 4 | 2 Range
=5 memory m 0 3 4 | 5 Range
=3 assume v - v >= 1 | 3 Range
=8 state B in P start | 8 Start
=8 state Q start | 8 Start
10 entry A do o = 2 | 10 Twice
3 {6:input a@ 0 9/} | 8 limit Inputs
4 {16:assume v <= @/} | 19 limit Assumptions
5 {8:output a@ 0/} | 12 limit Outputs
6 {4:memory a@ 0 3 0/} | 9 limit Memories
=5 memory m 0 1001 0 | 5 limit Bound
=5 memory m 0 256 0 | 5 limit Product
8 {63:state a@/} | 70 limit States
8 state s3 in A start/state s4 in s3 start/state s5 in s4 start/state s6 in s5 start/state s7 in s6 start/state s8 in s7 start/state s9 in s8 start | 14 limit Depth
10 {256:on A/} | 265 limit Transitions
=6 state P | 10 Missing
=7 state A in P | 10 Missing
8 state A in C | 8 Double
8 state X in X | 8 Unknown
";

/// Whole charts.
const WHOLE: &str = "
chart 2/input v 0 9/assume v <= 8/output o 0/memory m 0 3 0/state P start/state A in P start/on A go P history/ | 8 Form
# chart 1/ | 2 Version
chart 1/ | 2 Missing
";

/// Words over the chart.
const WORDS: &str = "
5; | 1 Byte
1000001 | 1 limit Literal
a23456789012345678901234567890123 | 1 limit NameBytes
{1025:5 } | 1 limit Tokens
{65:(} | 1 limit Nesting
x | 1 Form
5 5 | 1 Form
10 | 1 OutOfBox
9 | 1 OutOfBox
8 | [8]
";

/// Cuts over the inputs of the chart.
const CUTS: &str = "
cuts 2/ | 1 Version
 | 1 Version
cuts 1/on A | 2 NoSuchLine
cuts 1/cut v >= | 2 Form
cuts 1/cut m >= 1 | 2 Unknown
cuts 1/cut o >= 1 | 2 Unknown
cuts 1/cut v >= 1 | GreaterOrEqual [1] -1
";

fn with_lines(
    alloc: Global,
    lines: &str,
    place: usize,
    replaces: bool,
) -> Result<String, AllocError> {
    let mut text = String::new(alloc);
    for (number, line) in CHART.lines().enumerate() {
        if number.wrapping_add(1) == place {
            text.push_str(lines)?;
        }
        if !replaces || number.wrapping_add(1) != place {
            text.push_str(line)?;
            text.push('\n')?;
        }
    }
    if place == 10 {
        text.push_str(lines)?;
    }
    Ok(text)
}

/// The chart into which a row puts its lines.
fn chart_with(alloc: Global, written: &str) -> Result<String, AllocError> {
    let Some((place, lines)) = written.split_once(' ') else {
        return Err(AllocError);
    };
    let (place, replaces) = match place.strip_prefix('=') {
        Some(place) => (place, true),
        None => (place, false),
    };
    let Ok(place) = place.parse::<usize>() else {
        return Err(AllocError);
    };
    let mut lines = text_of(alloc, lines)?;
    if !lines.ends_with('\n') {
        lines.push('\n')?;
    }
    with_lines(alloc, lines.as_str(), place, replaces)
}

#[test]
fn charts_are_refused_as_shown(rt: HostRuntime) -> Result<(), Fail> {
    assert_eq!(rt; chart_answer(rt.alloc(), CHART)?.as_str(), "chart");
    for row in PUT_IN.lines() {
        let Some((written, want)) = row.split_once(" | ") else {
            assert!(rt; row.is_empty(), "no row: {row}");
            continue;
        };
        let text = chart_with(rt.alloc(), written)?;
        let found = chart_answer(rt.alloc(), text.as_str())?;
        assert_eq!(rt; found.as_str(), want, "{row}");
    }
    check(&rt, rt.alloc(), &Asked::Chart, "", WHOLE)?;
    Ok(())
}

#[test]
fn words_and_cuts_are_refused_as_shown(rt: HostRuntime) -> Result<(), Fail> {
    let chart = chart_of(rt.alloc(), CHART)?;
    check(&rt, rt.alloc(), &Asked::Word(&chart), "", WORDS)?;
    check(&rt, rt.alloc(), &Asked::Cuts(&chart), "", CUTS)?;
    Ok(())
}
