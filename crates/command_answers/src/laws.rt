ghost use Rattle.std.specs.Prelude.{List, ℕ, Err};
ghost use Rattle.command_stages.specs.declared.stop.Source.{Source};
ghost use Rattle.command_stages.specs.declared.stop.Departure.TheVariants.{Unread};
ghost use Rattle.command_stages.specs.declared.stop.Stop.TheVariants.{Departed};
ghost use Rattle.command_stages.specs.Stage.{Given};
ghost use Rattle.command_stages.specs.Serve.{IsOne, answer};
ghost use Rattle.command_answers.specs.Ends.{Answers, IsNamed};

use chart_syntax::{chart_or_refusal, word_or_refusal};
use cut_syntax::cuts_or_refusal;
use impl_table::table_or_refusal;
use suite_reading::reading_is_one;
use test_subject::verdict_on_answers;

/// There is at most one answer to words and held texts, and a command reads none but the texts that its words name.
/// This is a law; it does nothing.
pub fn one_answer()
    ensures one { IsOne Answers }
    ensures named { (given : Given) (sources : List Source) (put : List ℕ) (source : Source)
        → Answers given sources (answer put (Err (Departed (Unread source)))) → IsNamed given source }
{
    chart_or_refusal();
    word_or_refusal();
    cuts_or_refusal();
    table_or_refusal();
    reading_is_one();
    verdict_on_answers();
}
