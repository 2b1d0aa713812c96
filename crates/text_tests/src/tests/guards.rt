//! Guards among the tokens of a line.
use super::describe::chart_of;
use super::table::{Asked, check};
use std::test::Fail;

/// A chart of one input and a memory.
const CHART: &str = "chart 1\ninput v 0 10\noutput alarm 0\nmemory n 0 3 0\nstate Low start\n";

/// What stands from the fourth token of a line on, and the guard there with the number of the token after it.
const GUARDS: &str = "
v >= 8 gives 1 go H | GreaterOrEqual [1] [0, 0, 0, 0] -8 to 6
v > 0 or v | Greater [1] [0, 0, 0, 0] 0 to 6
not v + 1 = 2 and n | not(Equal [1] [0, 0, 0, 0] -1) to 9
v > 0 or (v < 3 and v | Greater [1] [0, 0, 0, 0] 0 to 6
 | 1 Form
v gives 1 | 1 Form
(n > 0 | 1 Form
n > 0 | 1 Unknown
v > 0 and alarm > 0 or ( | 1 Unknown
{63:v > 0 or }n > 0 | 1 Unknown
{64:v > 0 or }n > 0 | 1 limit Comparisons
";

#[test]
fn guards(rt: HostRuntime) -> Result<(), Fail> {
    let chart = chart_of(rt.alloc(), CHART)?;
    check(
        &rt,
        rt.alloc(),
        &Asked::Guard(&chart.signature, 3),
        "row L when ",
        GUARDS,
    )?;
    Ok(())
}
