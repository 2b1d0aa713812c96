//! What texts read as over the inputs of a chart, and the first line and check that refuses a text that is none.
use super::describe::chart_of;
use super::table::{Asked, check};
use std::test::Fail;

/// A chart of two inputs, an output and a memory.
const CHART: &str = "chart 1
input v 0 10
input lim 0 4000
output alarm 0
memory n 0 3 0
state S start
";

/// Texts and what is wanted of each.
const TEXTS: &str = "
cuts 1/cut v >= 7/ | GreaterOrEqual [1, 0] -7
cuts 1/ | empty
# none/cuts 1 # of version 1/\r/ | empty
cuts 1/cut 2*v - 3 < v + lim*4 - v + 1/cut 5 != 5/ | Less [2, -4] -4; NotEqual [0, 0] 0
cuts 1/cut -lim = v - 1000000 + v/ | Equal [-2, -1] 1000000
 | 1 Version
/# nothing/ | 3 Version
cut v >= 7/ | 1 Version
cuts 2/ | 1 Version
cuts 1 1/ | 1 Version
chart 1/ | 1 Version
cuts $/ | 1 Byte
/cuts 1/cuts 1/ | 3 NoSuchLine
cuts 1/input v 0 10/ | 2 NoSuchLine
cuts 1/v >= 7/ | 2 NoSuchLine
cuts 1/cut v/ | 2 Form
cuts 1/cut v >= 7 8/ | 2 Form
cuts 1/cut v >= 7 and v < 9/ | 2 Form
cuts 1/cut x >= 7 8/ | 2 Form
cuts 1/cut x >= 7/ | 2 Unknown
cuts 1/cut n >= 1/ | 2 Unknown
cuts 1/cut v >= alarm/ | 2 Unknown
cuts 1/cut v >= 1000001/ | 2 limit Literal
cuts 1/cut v >= 7 # \u{e9}/cut v $/cut x >= 7/ | 3 Byte
cuts 1/cut v >= 7/cut x >= 7/ | 3 Unknown
";

#[test]
fn cuts(rt: HostRuntime) -> Result<(), Fail> {
    let chart = chart_of(rt.alloc(), CHART)?;
    check(&rt, rt.alloc(), &Asked::Cuts(&chart), "", TEXTS)?;
    Ok(())
}
