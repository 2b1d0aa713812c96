ghost use Rattle.std.specs.Prelude.{◌≡◌, All, map, string_bytes};
ghost use Rattle.lin_form.specs.Signature.{IsInInputRanges};
ghost use Rattle.test_world.specs.Sink.{Puts};
ghost use Rattle.command_stages.specs.Stage.{Made};
ghost use Rattle.command_answers.specs.Ends.{PlayEnds};
ghost use Rattle.command_answers.specs.Play.{play_text};

use chart_meaning::ChartPlan;
use command_stages::{Departure, Line, Print, Stop, Word, chart_at, word_over};
use lin_form::Vector;
use std::alloc::Global;
use std::marker::Model;
use test_world::{Fault, Shelf, Sink, put_all};

/// What `play` prints: the chart's replies to the word.
#[derive(Drop)]
pub struct Replies {
    plan: ChartPlan,
    word: Word,
}

impl Model for Replies {
    ghost use Rattle.std.specs.Prelude.{true, All};
    ghost use Rattle.lin_form.specs.Signature.{IsInInputRanges};
    ghost use Rattle.command_stages.specs.Stage.{Printed};
    ghost use Rattle.command_answers.specs.Play.{play_text};

    ghost Value = { Printed };

    ghost view = { λ r. record { passes = true; text = play_text r.plan r.word } };

    ghost invariant = { λ r. All (λ vector. IsInInputRanges r.plan.signature.inputs vector) r.word };
}

impl Print for Replies {
    ghost printed = { λ replies. replies };

    fn passes(&self) -> bool {
        let _plan = &self.plan;
        true
    }

    fn put<K: Sink>(&mut self, out: &mut K) -> Result<(), Fault> {
        print_replies(&self.plan, self.word.as_slice(), out)
    }
}

// Puts the plan's replies to the word, one line for each step. It takes no memory.
fn print_replies<K: Sink>(plan: &ChartPlan, word: &[Vector], out: &mut K) -> Result<(), Fault>
    requires { All (λ vector. IsInInputRanges plan.now.signature.inputs vector) word.now }
    ensures { Puts (K.state out.old) (K.state out.new) (play_text plan.now word.now) result }
{
    let mut line = Line::new();
    let mut config = plan.start();
    'word: for vector in word {
        let step = plan.step(&config, vector);
        line.set_numbers(step.reply.as_slice());
        match put_all(out, line.bytes()) {
            Ok(()) => {}
            Err(fault) => return Err(fault),
        }
        config = step.state;
    }
    Ok(())
}

/// `play CHART WORD`.
pub fn play<F: Shelf>(alloc: Global, words: &[String], shelf: &mut F) -> Result<Replies, Stop>
    ensures { Made PlayEnds (map string_bytes words.now) (F.state shelf.old) (F.state shelf.new) result }
{
    let chart = chart_at(alloc, words, 1, shelf)?;
    let word = word_over(alloc, words, 2, &chart, shelf)?;
    match ChartPlan::new(alloc, chart) {
        Ok(plan) => Ok(Replies { plan, word }),
        Err(_) => Err(Stop::Departed(Departure::NoMemory)),
    }
}
