//! What holds of every text. The law is a function's contract; the function does nothing.
ghost use Rattle.std.specs.Prelude.{ℕ, List};
ghost use Rattle.text_lines.specs.Reading.{IsDecided};
ghost use Rattle.impl_table.specs.Reading.{ReadsTable, RefusesTable};

use crate::form::TableForm;
use line_checks::guards_fit;
use line_forms::{one_parse, small_parse, some_parse};

/// For each text there is exactly one reading as a table, or exactly one refusal: not two, not both, and it cannot be
/// that there is neither.
pub fn table_or_refusal()
    ensures { (text : List ℕ) → IsDecided (ReadsTable text) (RefusesTable text) }
{
    one_parse::<TableForm>();
    some_parse::<TableForm>();
    small_parse::<TableForm>();
    guards_fit();
}
