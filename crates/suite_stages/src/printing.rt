ghost use Rattle.std.specs.Prelude.{◌≡◌, IfOk, true};
ghost use Rattle.command_stages.specs.Stage.{Printed};
ghost use Rattle.suite_model.specs.Text.{suite_text};

use command_stages::Print;
use std::alloc::{AllocError, Global};
use std::marker::Model;
use suite_model::{Scratch, Suite};
use suite_text::write_suite;
use test_world::{Fault, Sink};

/// What `suite` prints: a suite, with the memory for its lines.
#[derive(Drop)]
pub struct SuiteLines {
    suite: Suite,
    scratch: Scratch,
}

impl Model for SuiteLines {
    ghost use Rattle.std.specs.Prelude.{true};
    ghost use Rattle.command_stages.specs.Stage.{Printed};
    ghost use Rattle.suite_model.specs.Scratch.{IsMadeFor};
    ghost use Rattle.suite_model.specs.Text.{suite_text};

    ghost Value = { Printed };

    ghost view = { λ lines. record { passes = true; text = suite_text lines.suite } };

    ghost invariant = { λ lines. IsMadeFor lines.suite lines.scratch };
}

impl SuiteLines {
    /// The lines of a suite. The error is want of memory.
    pub fn new(alloc: Global, suite: Suite) -> Result<SuiteLines, AllocError>
        ensures { IfOk result (λ lines. lines ≡ record { passes = true; text = suite_text suite }) }
    {
        let scratch = Scratch::for_suite(alloc, &suite)?;
        Ok(SuiteLines { suite, scratch })
    }
}

impl Print for SuiteLines {
    ghost printed = { λ lines. lines };

    fn passes(&self) -> bool {
        let _suite = &self.suite;
        true
    }

    fn put<K: Sink>(&mut self, out: &mut K) -> Result<(), Fault> {
        write_suite(&self.suite, &mut self.scratch, out)
    }
}
