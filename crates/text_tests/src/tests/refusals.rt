//! Every kind of fault of a chart, with charts that come close to it.
use super::table::{Asked, check};
use std::test::Fail;

/// Whole texts: the first line, what is missing at the end, the order of groups, names and ranges, what is assumed.
const TEXTS: &str = "
 | 1 Version
/# chart 1/\t/ | 4 Version
# chart 1 | 2 Version
//input v 0 9/ | 3 Version
chart/ | 1 Version
chart 0/ | 1 Version
chart 4/ | 1 Version
chart -1/ | 1 Version
chart 1 1/ | 1 Version
chart one/ | 1 Version
Chart 1/ | 1 Version
cuts 1/ | 1 Version
table 1/ | 1 Version
1/ | 1 Version
chart 1 | 2 Missing
chart 1/ | 2 Missing
chart 1// | 3 Missing
chart 1/output o 0/state S start/ | 4 Missing
chart 1/input v 0 9/state S start/ | 4 Missing
chart 1/input v 0 9/output o 0/ | 4 Missing
chart 1/input v 0 9/output o 0/state S/ | 5 Missing
chart 1/input v 0 9/output o 0/state S/state T in S start/# end | 7 Missing
chart 1/input v 0 9/output o 0/state S start/state T in S/ | 6 Missing
chart 1/input v 0 9/output o 0/state S start/state T in S start/state U in T/on S/ | 8 Missing
chart 1/input v 0 9/output o 0/state S start/state T/state U in S start/state V in T/ | 8 Missing
chart 1/input v 0 9/output o 0/state S start | chart
chart 1/output o 0/input v 0 9/ | 3 Misplaced
chart 2/input v 0 9/output o 0/assume v >= 1/ | 4 Misplaced
chart 2/input v 0 9/assume v >= 1/input w 0 9/ | 4 Misplaced
chart 1/input v 0 9/memory m 0 9 0/output o 0/ | 4 Misplaced
chart 1/input v 0 9/output o 0/state S start/memory m 0 9 0/ | 5 Misplaced
chart 1/input v 0 9/output o 0/state S start/on S/state T/ | 6 Misplaced
chart 1/input v 0 9/output o 0/state S start/exit S do o = 1/state T/ | 6 Misplaced
chart 1/input v 0 9/output o 0/state S start/on S/entry S do o = 1/exit S do o = 1/on S/ | chart
chart 1/input v 0 9/input v 0 9/ | 3 Double
chart 1/input v 0 9/output v 0/ | 3 Double
chart 1/input v 0 9/output o 0/output o 1/ | 4 Double
chart 1/input v 0 9/output o 0/memory v 0 9 0/ | 4 Double
chart 1/input v 0 9/output o 0/memory o 0 9 0/ | 4 Double
chart 1/input v 0 9/output o 0/memory m 0 9 0/memory m 0 9 0/ | 5 Double
chart 1/input v 5 4/ | 2 Range
chart 1/input v 0 -1/ | 2 Range
chart 1/input v 4 4/output o 0/memory m 0 0 0/memory k -3 -1 -3/memory l -3 -1 -1/state v start/ | chart
chart 1/input v 0 9/output o 0/memory m 0 9 10/ | 4 Range
chart 1/input v 0 9/output o 0/memory m 0 9 -1/ | 4 Range
chart 1/input v 0 9/output o 0/memory m 1 0 0/ | 4 Range
chart 1/input v 0 9/output o 0/memory m 1 0 1/ | 4 Range
chart 1/input v 0 9/assume v >= 1/ | 3 NoSuchLine
chart 2/input v 0 9/assume v != 1/ | 3 Form
chart 2/input v 0 9/assume (v = 1)/ | 3 Form
chart 2/input v 0 9/assume v = 1 and v = 1/ | 3 Form
chart 2/input v 0 9/assume w >= 1/ | 3 Unknown
chart 2/assume v >= 1/input v 0 9/ | 2 Unknown
chart 2/input v 0 9/assume 1 >= 0/ | 3 Range
chart 3/input a 0 9/input b 0 9/assume a - b <= 2*a - b - a + 7/ | 4 Range
chart 3/input a 0 9/input b 0 9/assume a - b <= 2*a - b/output o 0/state S start/ | chart
chart 2/input a 0 3/input b 0 3/assume a - a >= 1/output o 0/state S start/on S when 2*a = 2*b + 1 do o = 1/ | 4 Range
chart 1/input v 0 10/output alarm 0/state Low start/state High/on Low when v >=/ | 6 Form
chart 1/input v 0 1000001/output alarm 0/state Low start/state High/on Low when v >= 8 do alarm = 1 go High/ | 2 limit Literal
chart 1/input v 5 4/output alarm 0/state Low start/state High/on Low when v >= 8 do alarm = 1 go High/ | 2 Range
";

const FRONT: &str = "chart 3\ninput v -9 9\noutput o 0\nmemory m 0 9 0\n";

/// States and what they do, after the front, from line 5 on.
const STATES: &str = "
state S in S start/ | 5 Unknown
state S in T start/state T/ | 5 Unknown
state S in v/ | 5 Unknown
state S/state S start/ | 6 Double
state S/state S in S/ | 6 Double
state S/state T in S/state S in U/ | 7 Double
state o start/state m in o start/state v in o/ | chart
state S start/state T start/ | 6 Start
state S/state T/state U start/ | chart
state S start/state T in S start/state U in S start/ | 7 Start
state S start/state T in S/state U/state V in U start/state W in S start/ | chart
state S start/state T in S start/state U in T start/state V start/ | 8 Start
state S start/state T in S start start/ | 6 Form
state S start in T/ | 5 Form
state start/ | 5 Form
state S start/entry S do o = 1/exit S do o = 1/entry S do o = 2/ | 8 Twice
state S start/exit S do o = 1/on S/exit S do o = 1/ | 8 Twice
state S start/state T/entry T do o = 1/exit S do o = 1/entry S do o = 2/exit T do o = 1/ | chart
state S start/state T/entry T do o = 1/entry S do o = 1/entry T do o = 1/ | 9 Twice
state S start/state P/state C in P start/on S go P history/on C go P/ | chart
state S start/state P/state C in P start/on S go C history/ | 8 Misuse
state S start/on S go S history/ | 6 Misuse
state S start/on S go T history/ | 6 Unknown
";

const STATE: &str = "chart 3\ninput v -9 9\noutput o 0\nmemory m 0 9 0\nstate S start\n";

/// Lines that follow a state, as line 6.
const LINES: &str = "
on S # \u{e9} ! \r $ | chart
on S \u{e9} | 6 Byte
on S ! | 6 Byte
on S \r go S | 6 Byte
on S \x7f | 6 Byte
on S \x0b | 6 Byte
on S when v & 1 | 6 Byte
chart 3 | 6 NoSuchLine
row S | 6 NoSuchLine
cut v >= 1 | 6 NoSuchLine
start | 6 NoSuchLine
On S | 6 NoSuchLine
S | 6 NoSuchLine
5 | 6 NoSuchLine
= on | 6 NoSuchLine
on | 6 Form
on on | 6 Form
on S S | 6 Form
on S history | 6 Form
on S go | 6 Form
on S go history | 6 Form
on S do o = 1 when v = 1 | 6 Form
on S when v = 1 or | 6 Form
on S when (v = 1 | 6 Form
on S when (v) = 1 | 6 Form
on S when v = 2*3 | 6 Form
on S when v = v*v | 6 Form
on S do o = - - 1 | 6 Form
on S do o = 1, | 6 Form
on S do o <= 1 | 6 Form
on S do | 6 Form
on S gives 5000000 | 6 Form
entry S | 6 Form
entry S do o = 1 go S | 6 Form
exit S go S | 6 Form
on X | 6 Unknown
on v | 6 Unknown
on S go X | 6 Unknown
on S go o | 6 Unknown
entry X do o = 1 | 6 Unknown
exit X do o = 1 | 6 Unknown
on S when x = 1 | 6 Unknown
on S when 1 < x | 6 Unknown
on S when S = 1 | 6 Unknown
on S when v = 1 or not (v = 2 and 0*x = 1) | 6 Unknown
on S do x = 1 | 6 Unknown
on S do S = 1 | 6 Unknown
on S do o = x | 6 Unknown
on S do o = m, m = 2*x | 6 Unknown
on S when o = 1 | 6 Misuse
on S when m = v - o*0 | 6 Misuse
on S do v = 1 | 6 Misuse
on S do o = v | 6 Misuse
on S do o = o + 1 | 6 Misuse
entry S do v = 1 | 6 Misuse
exit S do m = m + 0*o | 6 Misuse
on X when o = 1 | 6 Unknown
on S when o = x | 6 Misuse
on S when x = o | 6 Unknown
on S when o = 1 do x = 1 | 6 Misuse
on S do x = v | 6 Unknown
on S do v = x | 6 Misuse
on S do o = v, x = 1 | 6 Misuse
on S do v = 1 go X | 6 Misuse
entry X do v = 1 | 6 Unknown
on S when m = v do m = m, o = m go S | chart
";

/// The word `history` belongs to version 3, and to states with children.
const HISTORY: &str = "
chart 3/input x 0 2/output o 0/state P start/state A in P start/state B in P/state Q/entry A do o = 1/entry B do o = 2/entry Q do o = 9/on A when x = 1 go B/on P when x = 2 go Q/on Q when x = 1 go P history/on Q when x = 2 go P/ | chart
chart 2/input x 0 2/output o 0/state P start/state A in P start/state B in P/state Q/entry A do o = 1/entry B do o = 2/entry Q do o = 9/on A when x = 1 go B/on P when x = 2 go Q/on Q when x = 1 go P history/on Q when x = 2 go P/ | 13 Form
chart 1/input x 0 2/output o 0/state P start/state A in P start/state B in P/state Q/entry A do o = 1/entry B do o = 2/entry Q do o = 9/on A when x = 1 go B/on P when x = 2 go Q/on Q when x = 1 go P history/on Q when x = 2 go P/ | 13 Form
chart 3/input x 0 2/output o 0/state P start/state A in P start/state B in P/state Q/entry A do o = 1/entry B do o = 2/entry Q do o = 9/on A when x = 1 go B/on P when x = 2 go Q/on Q when x = 1 go A history/on Q when x = 2 go P/ | 13 Misuse
chart 2/input x 0 2/output o 0/state P start/state A in P start/state B in P/state Q/entry A do o = 1/entry B do o = 2/entry Q do o = 9/on A when x = 1 go B/on P when x = 2 go Q/on Q when x = 1 go A history/on Q when x = 2 go P/ | 13 Form
chart 1/input x 0 2/output o 0/state P start/state A in P start/state B in P/state Q/entry A do o = 1/entry B do o = 2/entry Q do o = 9/on A when x = 1 go B/on P when x = 2 go Q/on Q when x = 1 go P/on Q when x = 2 go P/ | chart
";

#[test]
fn faults(rt: HostRuntime) -> Result<(), Fail> {
    check(&rt, rt.alloc(), &Asked::Chart, "", TEXTS)?;
    check(&rt, rt.alloc(), &Asked::Chart, FRONT, STATES)?;
    check(&rt, rt.alloc(), &Asked::Chart, STATE, LINES)?;
    check(&rt, rt.alloc(), &Asked::Chart, "", HISTORY)?;
    Ok(())
}
