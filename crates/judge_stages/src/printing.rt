ghost use Rattle.std.specs.Prelude.{◌≡◌, IfOk};
ghost use Rattle.command_stages.specs.Stage.{Printed};
ghost use Rattle.verdict_report.specs.Json.{json_text};
ghost use Rattle.judge_stages.specs.Verdicts.{printed_verdict, verdict_lines};

use crate::judgement::Judged;
use command_stages::Print;
use std::alloc::{AllocError, Global};
use std::marker::Model;
use test_world::{Fault, Sink, Text, put_all};

/// What `run` and `replay` print: the lines of a verdict, with the memory for them.
#[derive(Drop)]
pub struct VerdictLines {
    judged: Judged,
}

impl Model for VerdictLines {
    ghost use Rattle.command_stages.specs.Stage.{Printed};
    ghost use Rattle.judge_stages.specs.Verdicts.{printed_verdict, verdict_lines};

    ghost Value = { Printed };

    ghost view = { λ lines. printed_verdict verdict_lines lines.judged };
}

impl VerdictLines {
    /// The lines of a verdict. It takes no memory.
    pub fn new(judged: Judged) -> VerdictLines
        ensures { result ≡ printed_verdict verdict_lines judged }
    {
        VerdictLines { judged }
    }
}

impl Print for VerdictLines {
    ghost printed = { λ lines. lines };

    fn passes(&self) -> bool {
        self.judged.passes()
    }

    fn put<K: Sink>(&mut self, out: &mut K) -> Result<(), Fault> {
        self.judged.put(out)
    }
}

/// What `json` prints: a verdict as a line of JSON.
#[derive(Drop)]
pub struct JsonLine {
    passes: bool,
    line: Text,
}

impl Model for JsonLine {
    ghost use Rattle.command_stages.specs.Stage.{Printed};

    ghost Value = { Printed };

    ghost view = { λ json. record { passes = json.passes; text = json.line } };
}

impl JsonLine {
    /// The JSON of a verdict. The error is want of memory.
    pub fn new(alloc: Global, judged: &Judged) -> Result<JsonLine, AllocError>
        ensures { IfOk result (λ json. json ≡ printed_verdict json_text judged.now) }
    {
        let line = judged.json(alloc)?;
        let passes = judged.passes();
        Ok(JsonLine { passes, line })
    }
}

impl Print for JsonLine {
    ghost printed = { λ json. json };

    fn passes(&self) -> bool {
        self.passes
    }

    fn put<K: Sink>(&mut self, out: &mut K) -> Result<(), Fault> {
        put_all(out, self.line.bytes())
    }
}
