ghost use Rattle.std.specs.Prelude.{◌≡◌, true, IfOk};
ghost use Rattle.command_stages.specs.Stage.{Printed};
ghost use Rattle.gen_stages.specs.Summary.{summary_text};

use crate::counting::{count_lines, steps_of};
use command_stages::{Line, Print};
use judge_stages::Judged;
use std::alloc::{AllocError, Global};
use std::marker::Model;
use suite_model::Scratch;
use test_world::{Fault, Sink, put_all};

/// What `gen` prints: what there is of a number's chart and its suite, and the lines of the verdict.
#[derive(Drop)]
pub struct SummaryLines {
    counts: Line,
    judged: Judged,
}

impl Model for SummaryLines {
    ghost use Rattle.std.specs.Prelude.{true, ◌++◌};
    ghost use Rattle.command_stages.specs.Stage.{Printed};
    ghost use Rattle.judge_stages.specs.Verdicts.{verdict_lines};

    ghost Value = { Printed };

    ghost view = { λ lines. record {
      passes = true;
      text = lines.counts ++ verdict_lines lines.judged.suite lines.judged.verdict;
    } };
}

impl SummaryLines {
    /// The lines of a number, of how many configurations its chart reaches, and of the verdict by its suite. The error is
    /// want of memory.
    pub fn new(
        alloc: Global,
        number: u32,
        configurations: usize,
        judged: Judged,
    ) -> Result<SummaryLines, AllocError>
        ensures { IfOk result (λ lines. let printed : Printed = record {
          passes = true;
          text = summary_text number configurations judged;
        } in lines ≡ printed) }
    {
        let suite = judged.suite();
        let mut scratch = Scratch::for_suite(alloc, suite)?;
        match steps_of(suite, &mut scratch) {
            Some(steps) => {
                let counts = count_lines(number, configurations, suite, steps);
                Ok(SummaryLines { counts, judged })
            }
            None => Err(AllocError),
        }
    }
}

impl Print for SummaryLines {
    ghost printed = { λ lines. lines };

    fn passes(&self) -> bool {
        let _counts = &self.counts;
        true
    }

    fn put<K: Sink>(&mut self, out: &mut K) -> Result<(), Fault> {
        match put_all(out, self.counts.bytes()) {
            Ok(()) => self.judged.put(out),
            Err(fault) => Err(fault),
        }
    }
}
