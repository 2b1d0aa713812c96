//! Charts of every version with all that they read as.
use super::describe::chart_reading;
use super::table::{Asked, check};
use std::test::Fail;

/// Spaces, comments, carriage returns and leading zeros.
const SPACED: &str =
    "\t chart 01 # the version\r\n\r\n   # \u{e9} and $ stand in a comment\ninput a - 5 -05\ninput start_2 0\t10#\r\noutput x -7\noutput y 1000000\nstate x\nstate _T9 start#the start\non x when start_2!=- 3 do x=- 1,y=2,x=003 go _T9\non _T9\non _T9 go x # and no line feed";

const SPACED_READ: &str = "input a -5 -5
input start_2 0 10
output x -7
output y 1000000
state x None
state _T9 None start
on 0 when NotEqual [0, 1] [0, 0, 0, 0] 3 do Output(0) = [0, 0] [0, 0, 0, 0] -1 do Output(1) = [0, 0] [0, 0, 0, 0] 2 do Output(0) = [0, 0] [0, 0, 0, 0] 3 go 1
on 1
on 1 go 0
";

/// A memory.
const COUNT: &str = "chart 1
input t 0 0
output c 0
memory n 0 3 0
state S start
on S do n = n + 1, c = n
";

const COUNT_READ: &str = "input t 0 0
output c 0
memory n 0 3 0
state S None start
on 0 do Memory(0) = [0] [1, 0, 0, 0] 1 do Output(0) = [0] [1, 0, 0, 0] 0
";

/// Nested states.
const NEST: &str = "chart 1
input x 0 1
output o 0
state P start
state A in P start
state B in P
state Q
entry B do o = 2
exit A do o = 1
on A when x = 1 do o = 5 go B
on P when x >= 0 do o = 9 go Q
";

const NEST_READ: &str = "input x 0 1
output o 0
state P None start
state A Some(0) start exit Output(0) = [0] [0, 0, 0, 0] 1
state B Some(0) entry Output(0) = [0] [0, 0, 0, 0] 2
state Q None
on 1 when Equal [1] [0, 0, 0, 0] -1 do Output(0) = [0] [0, 0, 0, 0] 5 go 2
on 0 when GreaterOrEqual [1] [0, 0, 0, 0] 0 do Output(0) = [0] [0, 0, 0, 0] 9 go 3
";

/// History.
const HIST: &str = "chart 3
input x 0 2
output o 0
state P start
state A in P start
state B in P
state Q
entry A do o = 1
entry B do o = 2
entry Q do o = 9
on A when x = 1 go B
on P when x = 2 go Q
on Q when x = 1 go P history
on Q when x = 2 go P
";

const HIST_READ: &str = "input x 0 2
output o 0
state P None start
state A Some(0) start entry Output(0) = [0] [0, 0, 0, 0] 1
state B Some(0) entry Output(0) = [0] [0, 0, 0, 0] 2
state Q None entry Output(0) = [0] [0, 0, 0, 0] 9
on 1 when Equal [1] [0, 0, 0, 0] -1 go 2
on 0 when Equal [1] [0, 0, 0, 0] -2 go 3
on 3 when Equal [1] [0, 0, 0, 0] -1 go 0 history
on 3 when Equal [1] [0, 0, 0, 0] -2 go 0
";

/// A monitor of a speed and its limit.
const MONITOR: &str = "chart 1
input v 0 4000
input lim 0 4000
output warn 0
output brake 0
state Normal start
state Over
state Warning
state Braking
on Normal when v > lim + 100 do warn = 1, brake = 1 go Braking
on Normal when v > lim + 50 do warn = 1 go Warning
on Normal when v > lim go Over
on Over when v > lim + 100 do warn = 1, brake = 1 go Braking
on Over when v > lim + 50 do warn = 1 go Warning
on Over when v <= lim go Normal
on Warning when v > lim + 100 do brake = 1 go Braking
on Warning when v <= lim do warn = 0 go Normal
on Braking when v = 0 do warn = 0, brake = 0 go Normal
";

const MONITOR_READ: &str = "input v 0 4000
input lim 0 4000
output warn 0
output brake 0
state Normal None start
state Over None
state Warning None
state Braking None
on 0 when Greater [1, -1] [0, 0, 0, 0] -100 do Output(0) = [0, 0] [0, 0, 0, 0] 1 do Output(1) = [0, 0] [0, 0, 0, 0] 1 go 3
on 0 when Greater [1, -1] [0, 0, 0, 0] -50 do Output(0) = [0, 0] [0, 0, 0, 0] 1 go 2
on 0 when Greater [1, -1] [0, 0, 0, 0] 0 go 1
on 1 when Greater [1, -1] [0, 0, 0, 0] -100 do Output(0) = [0, 0] [0, 0, 0, 0] 1 do Output(1) = [0, 0] [0, 0, 0, 0] 1 go 3
on 1 when Greater [1, -1] [0, 0, 0, 0] -50 do Output(0) = [0, 0] [0, 0, 0, 0] 1 go 2
on 1 when LessOrEqual [1, -1] [0, 0, 0, 0] 0 go 0
on 2 when Greater [1, -1] [0, 0, 0, 0] -100 do Output(1) = [0, 0] [0, 0, 0, 0] 1 go 3
on 2 when LessOrEqual [1, -1] [0, 0, 0, 0] 0 do Output(0) = [0, 0] [0, 0, 0, 0] 0 go 0
on 3 when Equal [1, 0] [0, 0, 0, 0] 0 do Output(0) = [0, 0] [0, 0, 0, 0] 0 do Output(1) = [0, 0] [0, 0, 0, 0] 0 go 0
";

/// Lines on entry and exit.
const LINES: &str = "chart 2
input a 0 1
output o 0
output p 0
memory m 0 9 5
state S start
state T
on T go S
exit T do m = m + 1, o = 2*m
on S go T
entry S do p = - m
entry T do o = 1
exit S do p = 3, o = m, p = 4
";

const LINES_READ: &str = "input a 0 1
output o 0
output p 0
memory m 0 9 5
state S None start entry Output(1) = [0] [-1, 0, 0, 0] 0 exit Output(1) = [0] [0, 0, 0, 0] 3 exit Output(0) = [0] [1, 0, 0, 0] 0 exit Output(1) = [0] [0, 0, 0, 0] 4
state T None entry Output(0) = [0] [0, 0, 0, 0] 1 exit Memory(0) = [0] [1, 0, 0, 0] 1 exit Output(0) = [0] [2, 0, 0, 0] 0
on 1 go 0
on 0 go 1
";

/// Assumptions.
const ASSUMED: &str = "chart 2
input a 0 3
input b 0 3
assume 2*a = 2*b + 1
assume 3 < a*2 - b + 10 - a
output o 0
state S start
on S when 1000000*a + 1000000*a >= 1
";

const ASSUMED_READ: &str = "input a 0 3
input b 0 3
output o 0
assume Equal [2, -2] [0, 0, 0, 0] -1
assume Less [-1, 1] [0, 0, 0, 0] -7
state S None start
on 0 when GreaterOrEqual [2000000, 0] [0, 0, 0, 0] -1
";

/// What stands before the transitions.
const FRONT: &str =
    "chart 3\ninput a -5 5\ninput b 0 7\noutput o -1\noutput p 2\nmemory m -3 4 -3\nmemory n 0 1 1\nstate P start\nstate A in P start\nstate B in P\nstate C in B start\n";

/// Sums, whose coefficients and constants are added up, and the two sides of comparisons.
const SUMS: &str = "
on P do o = 7 | on 0 do Output(0) = [0, 0] [0, 0, 0, 0] 7
on P do o = - m, p = m*3, m = 2*m, n = -2*n | on 0 do Output(0) = [0, 0] [-1, 0, 0, 0] 0 do Output(1) = [0, 0] [3, 0, 0, 0] 0 do Memory(0) = [0, 0] [2, 0, 0, 0] 0 do Memory(1) = [0, 0] [0, -2, 0, 0] 0
on P do o = m + 2*m - n*3 + 4 - 5 + n - m + m*7 | on 0 do Output(0) = [0, 0] [9, -2, 0, 0] -1
on P do m = m - m, m = 0*n + 10 | on 0 do Memory(0) = [0, 0] [0, 0, 0, 0] 0 do Memory(0) = [0, 0] [0, 0, 0, 0] 10
on C when - a - 2*a - a*3 + 4 - b >= m*2 - 5 + n - n | on 3 when GreaterOrEqual [-6, -1] [-2, 0, 0, 0] 9
on P when 3 != 4 | on 0 when NotEqual [0, 0] [0, 0, 0, 0] -1
on P when m - m < a - a | on 0 when Less [0, 0] [0, 0, 0, 0] 0
";

/// Chains, which associate to the left, and `and`, which binds before `or`; targets.
const GUARDS: &str = "
on P when a = 1 or b = 2 or m = 3 | on 0 when or(or(Equal [1, 0] [0, 0, 0, 0] -1; Equal [0, 1] [0, 0, 0, 0] -2); Equal [0, 0] [1, 0, 0, 0] -3)
on P when a = 1 and b = 2 and m = 3 | on 0 when and(and(Equal [1, 0] [0, 0, 0, 0] -1; Equal [0, 1] [0, 0, 0, 0] -2); Equal [0, 0] [1, 0, 0, 0] -3)
on P when a = 1 and (b = 2 and m = 3) | on 0 when and(Equal [1, 0] [0, 0, 0, 0] -1; and(Equal [0, 1] [0, 0, 0, 0] -2; Equal [0, 0] [1, 0, 0, 0] -3))
on A when a < 1 or b <= 2 and m != n do o = m go B history | on 1 when or(Less [1, 0] [0, 0, 0, 0] -1; and(LessOrEqual [0, 1] [0, 0, 0, 0] -2; NotEqual [0, 0] [1, -1, 0, 0] 0)) do Output(0) = [0, 0] [1, 0, 0, 0] 0 go 2 history
on A when not a > 1 and not (not not n >= 1 or (b < 1)) go A | on 1 when and(not(Greater [1, 0] [0, 0, 0, 0] -1); not(or(not(not(GreaterOrEqual [0, 0] [0, 1, 0, 0] -1)); Less [0, 1] [0, 0, 0, 0] -1))) go 1
on B go C | on 2 go 3
on P go P history | on 0 go 0 history
";

#[test]
fn whole_charts(rt: HostRuntime) -> Result<(), Fail> {
    let rows = [
        (SPACED, SPACED_READ),
        (COUNT, COUNT_READ),
        (NEST, NEST_READ),
        (HIST, HIST_READ),
        (MONITOR, MONITOR_READ),
        (LINES, LINES_READ),
        (ASSUMED, ASSUMED_READ),
    ];
    for (text, want) in rows {
        let found = chart_reading(rt.alloc(), text)?;
        assert_eq!(rt; found.as_str(), want);
    }
    Ok(())
}

#[test]
fn transitions(rt: HostRuntime) -> Result<(), Fail> {
    check(&rt, rt.alloc(), &Asked::Transitions, FRONT, SUMS)?;
    check(&rt, rt.alloc(), &Asked::Transitions, FRONT, GUARDS)?;
    Ok(())
}
