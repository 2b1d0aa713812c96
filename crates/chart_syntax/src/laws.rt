//! What holds of every text. Each law is a function's contract; the function does nothing.
ghost use Rattle.std.specs.Prelude.{ℕ, List};
ghost use Rattle.chart_model.specs.declared.chart.Chart.{Chart};
ghost use Rattle.chart_syntax.specs.Reading.{IsDecided};
ghost use Rattle.chart_syntax.specs.Words.{IsDecidedWord};

use line_forms::{Numbers, Statement, one_parse, small_parse, some_parse};

/// For each text there is exactly one reading as a chart, or exactly one refusal.
pub fn chart_or_refusal()
    ensures { (text : List ℕ) → IsDecided text }
{
    one_parse::<Statement>();
    some_parse::<Statement>();
    small_parse::<Statement>();
}

/// For each text there is exactly one reading as a word over a chart, or exactly one refusal.
pub fn word_or_refusal()
    ensures { (chart : Chart) (text : List ℕ) → IsDecidedWord chart text }
{
    one_parse::<Numbers>();
    some_parse::<Numbers>();
}
