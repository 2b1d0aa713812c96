ghost use Rattle.std.specs.Prelude.{IfOk};
ghost use Rattle.chart_gen.specs.Generated.{IsGenerated};

use crate::text::text_of;
use chart_syntax::{Chart, read_chart};
use std::alloc::{AllocError, Global};

/// The chart of a number. It goes up and down a row of 2 to 39 states with its one input.
///
/// The error is want of memory. That the lines of no number are refused is tested for all charts, and not proved.
pub fn generate(alloc: Global, number: u32) -> Result<Chart, AllocError>
    ensures { IfOk result (IsGenerated number) }
{
    let text = text_of(alloc, number)?;
    // No number's lines are refused: tests read the charts of all remainders by 190.
    match read_chart(alloc, text.as_slice()) {
        Ok(chart) => Ok(chart),
        Err(_) => Err(AllocError),
    }
}
