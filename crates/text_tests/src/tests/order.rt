//! Two faults in one text: of one line the first check, of two lines the first line.
use super::describe::chart_answer;
use super::table::{Asked, check, text_of};
use std::test::Fail;

const FRONT: &str = "chart 3\ninput v -9 9\noutput o 0\nmemory m 0 9 0\n";

/// Two faults on one line, after the front, from line 5 on: for each two checks that follow one another the first.
const ONE_LINE: &str = "
state S start/on S when v = 1000001 !/ | 6 Byte
{33:a} 1000001 !/ | 5 Byte
{33:a} 1000001/ | 5 limit NameBytes
1000001 {33:a} | 5 limit Literal
{1024:1 }1000001 | 5 limit Literal
{1025:1 }{33:a} | 5 limit NameBytes
{1025:(} | 5 limit Tokens
row {65:not } | 5 limit Nesting
input {65:(} | 5 limit Nesting
row when when/ | 5 NoSuchLine
input v/ | 5 Misplaced
input v 5 4/ | 5 Misplaced
assume x >= x/ | 5 Misplaced
state S start/on S when v = 0{64: or v = 0} go S S/ | 6 Form
state S start/on X when o = 0 go go/ | 6 Form
state S start/on X when v = 0{64: or x = 0} | 6 limit Comparisons
state S start/on S when v = 0{64: or v = 0} go X/ | 6 limit Comparisons
memory m 1 0 5/ | 5 Double
memory v 0 9 10/ | 5 Double
state S start/state S start/ | 6 Double
state S start/state T in U start/ | 6 Unknown
state S start/entry S do o = 1/entry S do o = x/ | 7 Unknown
state S start/exit S do o = 1/exit S do v = 1/ | 7 Misuse
memory n -2000 5000 6000/ | 5 Range
{3:memory m@ 0 1 0/}memory n 1 0 0/ | 8 Range
{3:memory m@ 0 1 0/}memory n 0 2000 0/ | 8 limit Memories
memory n 0 2000 0/ | 5 limit Bound
memory n 0 1000 0/ | 5 limit Product
{3:memory m@ 0 1 0/}memory v 0 1 0/ | 8 Double
state S start/{256:on S/}on S go X/ | 262 Unknown
state S start/{63:state s@/}state T start/ | 69 Start
{56:state s@/}state a start/state b in a/state c in b/state d in c/state e in d/state f in e/state g in f/state h in g/state k in h/ | 69 limit States
{4:memory m@ 0 1 0/} | 8 limit Memories
state S start/{64:state s@ in S/} | 69 limit States
";

/// Whole texts with two faults.
const TEXTS: &str = "
chart {65:(} | 1 limit Nesting
chart 1000001/ | 1 limit Literal
row S/ | 1 Version
input v 5 4/ | 1 Version
chart 4/input v 5 4/ | 1 Version
# no chart/!/ | 2 Byte
chart 1/input v 0 9/input v 5 4/ | 3 Double
chart 1/{6:input i@ 0 1/}input v 5 4/ | 8 Range
chart 1/{6:input i@ 0 1/}input i0 0 1/ | 8 Double
chart 1/input v 0 9/{8:output o@ 0/}output v 0/ | 11 Double
chart 2/input v 0 9/assume x = x/ | 3 Unknown
chart 2/input v 0 9/{16:assume v >= @/}assume v = v/ | 19 Range
";

/// A range of a memory and a later line, after the front.
const RANGES: &str = "
memory n 1 0 0/memory m 0 9 0/ | 5 Range
memory n 1 0 0/state S start/state T start/ | 5 Range
memory n 0 256 0/memory n 1 0 0/ | 5 limit Product
memory n 0 1001 0/memory k 1 0 0/ | 5 limit Bound
";

/// Lines that follow a state, each refused by a later check than the line before it.
const LINES: [(&str, &str); 11] = [
    ("on S !/", "6 Byte"),
    ("on S when v = 1000001/", "6 limit Literal"),
    ("on S {1023:+}/", "6 limit Tokens"),
    ("on S when {65:(}/", "6 limit Nesting"),
    ("row S/", "6 NoSuchLine"),
    ("input v 0 1/", "6 Misplaced"),
    ("on S go/", "6 Form"),
    ("on S when v = 0{64: or v = 0}/", "6 limit Comparisons"),
    ("on S go X/", "6 Unknown"),
    ("state T start/", "6 Start"),
    (
        "state a in S/state b in a/state c in b/state d in c/state e in d/state f in e/state g in f/state h in g/",
        "13 limit Depth",
    ),
];

#[test]
fn two_faults(rt: HostRuntime) -> Result<(), Fail> {
    check(&rt, rt.alloc(), &Asked::Chart, FRONT, ONE_LINE)?;
    check(&rt, rt.alloc(), &Asked::Chart, "", TEXTS)?;
    check(&rt, rt.alloc(), &Asked::Chart, FRONT, RANGES)?;
    for (first, want) in LINES {
        for (second, _) in LINES {
            let written = format!(in rt.alloc(); "state S start/{first}{second}")?;
            let mut text = String::from_str(rt.alloc(), FRONT)?;
            text.push_str(text_of(rt.alloc(), written.as_str())?.as_str())?;
            let found = chart_answer(rt.alloc(), text.as_str())?;
            assert_eq!(rt; found.as_str(), want, "{written}");
        }
    }
    Ok(())
}
