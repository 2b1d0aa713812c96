ghost use Rattle.std.specs.Prelude.{◌≡◌, IfOk};
ghost use Rattle.subject.specs.Suite.{tests_of};
ghost use Rattle.suite_model.specs.Scratch.{IsMadeFor};
ghost use Rattle.test_subject.specs.Verdict.{NamesStep};
ghost use Rattle.test_world.specs.Sink.{Puts};
ghost use Rattle.verdict_report.specs.Json.{json_text};
ghost use Rattle.judge_stages.specs.Verdicts.{Judgement, is_pass, verdict_lines};

use std::alloc::{AllocError, Global};
use std::marker::Model;
use suite_model::{Scratch, Suite};
use test_subject::Verdict;
use test_world::{Fault, Sink, Text};
use verdict_report::{verdict_json, write_verdict};

/// A suite and the verdict by it on an implementation, with the memory for the verdict's lines.
#[derive(Drop)]
pub struct Judged {
    suite: Suite,
    verdict: Verdict,
    scratch: Scratch,
}

impl Model for Judged {
    ghost use Rattle.subject.specs.Suite.{tests_of};
    ghost use Rattle.suite_model.specs.Scratch.{IsMadeFor};
    ghost use Rattle.test_subject.specs.Verdict.{NamesStep};
    ghost use Rattle.judge_stages.specs.Verdicts.{Judgement};

    ghost Value = { Judgement };

    ghost view = { λ judged. record { suite = judged.suite; verdict = judged.verdict } };

    ghost invariant = { λ judged. IsMadeFor judged.suite judged.scratch × NamesStep (tests_of judged.suite) judged.verdict };
}

fn is_pass(verdict: &Verdict) -> bool
    ensures { result ≡ is_pass verdict.now }
{
    match verdict {
        Verdict::Pass => true,
        Verdict::Fail { .. } => false,
    }
}

impl Judged {
    /// A suite and the verdict by it. It takes no memory.
    pub(crate) fn new(suite: Suite, verdict: Verdict, scratch: Scratch) -> Judged
        requires made { IsMadeFor suite scratch }
        requires names { NamesStep (tests_of suite) verdict }
        ensures { let judged : Judgement = record { suite = suite; verdict = verdict } in result ≡ judged }
    {
        Judged {
            suite,
            verdict,
            scratch,
        }
    }

    /// The suite.
    pub fn suite(&self) -> &Suite
        ensures { result.now ≡ self.now.suite }
    {
        &self.suite
    }

    /// Whether every reply is the expected one.
    pub fn passes(&self) -> bool
        ensures { result ≡ is_pass self.now.verdict }
    {
        is_pass(&self.verdict)
    }

    /// Puts the verdict's lines. It takes no memory.
    pub fn put<K: Sink>(&mut self, out: &mut K) -> Result<(), Fault>
        ensures put { Puts (K.state out.old) (K.state out.new) (verdict_lines self.old.suite self.old.verdict) result }
        ensures kept { self.new ≡ self.old }
    {
        write_verdict(&self.suite, &self.verdict, &mut self.scratch, out)
    }

    /// The verdict as a line of JSON.
    pub fn json(&self, alloc: Global) -> Result<Text, AllocError>
        ensures { IfOk result (λ text. text ≡ json_text self.now.suite self.now.verdict) }
    {
        verdict_json(alloc, &self.suite, &self.verdict)
    }
}
