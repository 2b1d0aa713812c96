//! Every limit of a chart at its edge, and one past it.
use super::table::{Asked, check};
use std::test::Fail;

const FRONT: &str =
    "chart 3\ninput v -9 9\noutput o 0\nmemory m 0 9 0\nstate S start\nstate T in S start\n";

/// What follows the front, from line 7 on.
const LINES: &str = "
on S when v < 1000000 or v > -1000000 go S | chart
/on S when v < 1000001 | 8 limit Literal
on S when v > -1000001 | 7 limit Literal
on S do o = 99999999999999999999999999 | 7 limit Literal
on S gives 1000000000000 | 7 Form
on S gives 1000000000001 | 7 limit Literal
on {32:a} | 7 Unknown
on {33:a} | 7 limit NameBytes
on S do o = m{509: + m} | chart
on S do o = - m{509: + m} | 7 limit Tokens
on S do o = m{508: + m} go S history | 7 limit Tokens
{1024:+} | 7 NoSuchLine
{1025:+} | 7 limit Tokens
on S when {64:(}v = 0{64:)} | chart
on S when {65:(}v = 0{65:)} | 7 limit Nesting
on S when {64:not }v = 0 | chart
on S when {65:not }v = 0 | 7 limit Nesting
on S when {32:not (}v = 0{32:)} | chart
on S when {32:not (}not v = 0{32:)} | 7 limit Nesting
on S when v = 0{63: or v = 0} | chart
on S when v = 0{64: or v = 0} | 7 limit Comparisons
on S when v = 0{31: and v = 0}{32: or not v = 0} | chart
on S when v = 0{32: and v = 0}{32: or not v = 0} | 7 limit Comparisons
on S when v = 0{63: or v = 0}/on S when v = 0 | chart
";

/// The largest sums that a line can have, after the front.
const SUMS: &str = "
on S do o = 1000000{509: + 1000000} | on 0 do Output(0) = [0] [0, 0, 0, 0] 510000000
on S do o = 1000000*m{253: + m*1000000} | on 0 do Output(0) = [0] [254000000, 0, 0, 0] 0
on S when 0 < - v*1000000{252: - 1000000*v} | on 0 when Less [253000000] [0, 0, 0, 0] 0
";

/// Whole charts.
const TEXTS: &str = "
chart 1/{6:input i@ 0 1/}output o 0/state S start/ | chart
chart 1/{7:input i@ 0 1/}output o 0/state S start/ | 8 limit Inputs
chart 2/input v 0 9/{16:assume v >= @/}output o 0/state S start/ | chart
chart 2/input v 0 9/{17:assume v >= @/}output o 0/state S start/ | 19 limit Assumptions
chart 1/input v 0 9/{8:output o@ 0/}state S start/ | chart
chart 1/input v 0 9/{9:output o@ 0/}state S start/ | 11 limit Outputs
chart 1/input v 0 9/output o 0/{4:memory m@ 0 3 0/}state S start/ | chart
chart 1/input v 0 9/output o 0/{5:memory m@ 0 3 0/}state S start/ | 8 limit Memories
chart 1/input v 0 9/output o 0/memory m -1000 -1000 -1000/memory n 1000 1000 1000/state S start/ | chart
chart 1/input v 0 9/output o 0/memory m 1000 1001 1000/state S start/ | 4 limit Bound
chart 1/input v 0 9/output o 0/memory m -1001 -1000 -1000/state S start/ | 4 limit Bound
chart 1/input v 0 9/output o 0/memory m 1001 1001 1001/state S start/ | 4 limit Bound
chart 1/input v 0 9/output o 0/memory m -1000000 1000000 0/state S start/ | 4 limit Bound
chart 1/input v 0 9/output o 0/memory m -100 155 0/state S start/ | chart
chart 1/input v 0 9/output o 0/memory m -100 156 0/state S start/ | 4 limit Product
chart 1/input v 0 9/output o 0/memory m 0 15 0/memory n 1 16 1/state S start/ | chart
chart 1/input v 0 9/output o 0/memory m 0 15 0/memory n 1 17 1/state S start/ | 5 limit Product
chart 1/input v 0 9/output o 0/memory m 0 127 0/memory n 7 7 7/memory k 0 1 0/memory l 0 0 0/state S start/ | chart
chart 1/input v 0 9/output o 0/memory m 0 127 0/memory n 7 7 7/memory k 0 1 0/memory l 0 1 0/state S start/ | 7 limit Product
chart 1/input v 0 9/output o 0/state S start/{63:state s@/} | chart
chart 1/input v 0 9/output o 0/state S start/{64:state s@/} | 68 limit States
chart 1/input v 0 9/output o 0/state S start/{64:state s@ in S/} | 68 limit States
chart 1/input v 0 9/output o 0/state a start/state b in a start/state c in b start/state d in c start/state e in d start/state f in e start/state g in f start/state h in g start/state k in g/ | chart
chart 1/input v 0 9/output o 0/state a start/state b in a start/state c in b start/state d in c start/state e in d start/state f in e start/state g in f start/state h in g start/state k in h/ | 12 limit Depth
chart 1/input v 0 9/output o 0/state S start/{256:on S/} | chart
chart 1/input v 0 9/output o 0/state S start/{257:on S/} | 261 limit Transitions
chart 1/input v 0 9/output o 0/state S start/{256:on S/}entry S do o = 1/exit S do o = 2/ | chart
chart 1/input a2345678901234567890123456789012 0 9/output o 0/state S start/ | chart
chart 1/input a23456789012345678901234567890123 0 9/output o 0/state S start/ | 2 limit NameBytes
chart 1/input v -1000000 1000000/output o -1000000/state S start/ | chart
chart 1/input v 0 1000001/output o 0/state S start/ | 2 limit Literal
chart 1/input v -1000001 0/output o 0/state S start/ | 2 limit Literal
chart 1/input v 0 9/output o 1000001/state S start/ | 3 limit Literal
chart 1000001/ | 1 limit Literal
chart 1/{6:input i@ 0 1/}{8:output o@ 0/}{4:memory m@ 0 3 0/}state S start/{63:state s@/}{63:on s@/}{193:on S/} | chart
chart 1/# a comment of any length {5000:$}/input v 0 9/output o 0/state S start/ | chart
";

#[test]
fn limits(rt: HostRuntime) -> Result<(), Fail> {
    check(&rt, rt.alloc(), &Asked::Chart, FRONT, LINES)?;
    check(&rt, rt.alloc(), &Asked::Transitions, FRONT, SUMS)?;
    check(&rt, rt.alloc(), &Asked::Chart, "", TEXTS)?;
    Ok(())
}
