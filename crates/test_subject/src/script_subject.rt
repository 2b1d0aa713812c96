//! Replies that were written down before, as a system under test, whose faults are planned.
ghost use Rattle.std.specs.Prelude.{◌≡◌, ◌<◌, ◌⊎◌, ◌↔◌, [], ◌∷◌, All, IsErr, OnOk, OnErr, IfOk};
ghost use Rattle.test_world.specs.Count.{greatest_count, raised};
ghost use Rattle.test_world.specs.Memory.{FailsAfter};

use crate::Subject;
use lin_form::{Reply, Vector};
use std::marker::Model;
use test_world::Fault;

/// A subject that gives one reply after another, whatever it is asked. Its calls count from 1, and those whose numbers
/// were named as bad fail, and so does a step where no reply is left. A failure keeps the replies.
#[derive(Drop)]
pub struct ScriptSubject {
    replies: Vec<Reply>,
    given: usize,
    bad: Vec<u64>,
    calls: u64,
    faults: u64,
}

impl Model for ScriptSubject {
    ghost use Rattle.std.specs.Prelude.{◌≤◌, drop, length};
    ghost use Rattle.test_subject.specs.Script.{Script};

    ghost Value = { Script };

    ghost view = { λ s. record {
      coming = drop s.given s.replies.items;
      bad = s.bad.items;
      calls = s.calls;
      faults = s.faults;
    } };

    ghost invariant = { λ s. s.given ≤ length s.replies.items };
}

impl ScriptSubject {
    /// A subject with these replies. It takes no memory.
    pub fn new(replies: Vec<Reply>, bad: Vec<u64>) -> ScriptSubject
        requires { All (λ number. number < greatest_count) bad.items }
        ensures { result ≡ record { coming = replies.items; bad = bad.items; calls = 0; faults = 0 } }
    {
        ScriptSubject {
            replies,
            given: 0,
            bad,
            calls: 0,
            faults: 0,
        }
    }

    /// Counts a call, which fails where its number was named as bad.
    fn begin_call(&mut self) -> Result<(), Fault>
        ensures fails { IsErr result ↔ FailsAfter self.old.calls self.old.bad }
        ensures ok { OnOk result (self.new ≡ record self.old { calls = raised self.old.calls }) }
        ensures err { OnErr result (self.new ≡ record self.old {
          calls = raised self.old.calls;
          faults = raised self.old.faults;
        }) }
    {
        self.calls = self.calls.saturating_add(1);
        if self.bad.contains(&self.calls) {
            return Err(self.fail());
        }
        Ok(())
    }

    /// Counts a failure.
    fn fail(&mut self) -> Fault
        ensures { self.new ≡ record self.old { faults = raised self.old.faults } }
    {
        self.faults = self.faults.saturating_add(1);
        Fault
    }
}

impl Subject for ScriptSubject {
    ghost use Rattle.test_subject.specs.Script.{state_of_script};

    ghost state = { state_of_script };

    ghost follows = { λ a b. Unit {0} };

    fn reset(&mut self) -> Result<(), Fault>
        ensures fails { IsErr result ↔ FailsAfter self.old.calls self.old.bad }
        ensures ok { OnOk result (self.new ≡ record self.old { calls = raised self.old.calls }) }
        ensures err { OnErr result (self.new ≡ record self.old {
          calls = raised self.old.calls;
          faults = raised self.old.faults;
        }) }
    {
        self.begin_call()
    }

    fn step(&mut self, input: &Vector) -> Result<Reply, Fault>
        ensures fails { IsErr result ↔ (FailsAfter self.old.calls self.old.bad ⊎ (self.old.coming ≡ [])) }
        ensures gives { IfOk result (λ reply. self.old.coming ≡ reply ∷ self.new.coming) }
        ensures ok { OnOk result (self.new ≡ record self.old {
          coming = self.new.coming;
          calls = raised self.old.calls;
        }) }
        ensures err { OnErr result (self.new ≡ record self.old {
          calls = raised self.old.calls;
          faults = raised self.old.faults;
        }) }
    {
        self.begin_call()?;
        if self.given == self.replies.len() {
            return Err(self.fail());
        }
        let reply = self.replies[self.given];
        self.given += 1;
        Ok(reply)
    }

    ghost use Rattle.std.proofs.lemmas.Bool.{false≢true};

    ghost one_each = { λ s told. absurd (false≢true told) };

    ghost follows_itself = { λ s. tt };

    ghost follows_along = { λ a b c p q. tt };
}
