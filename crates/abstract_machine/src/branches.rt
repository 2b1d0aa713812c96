ghost use Rattle.std.specs.Prelude.{◌≡◌, ℕ, ◌⊎◌, [], Some, OnOk};
ghost use Rattle.abstract_machine.specs.inside.Branches.{step_at};

use std::alloc::{AllocError, Global};
use std::marker::Model;

/// What the steps of one state led to, by the numbers of their branches: the number of the state reached and that of the
/// reply. Nothing rests on what is not noted but time.
#[derive(Drop)]
pub struct Branches {
    steps: Vec<Option<(usize, usize)>>,
}

impl Model for Branches {
    ghost use Rattle.std.specs.Prelude.{ℕ, List, Option};

    ghost Value = { List (Option (ℕ × ℕ)) };

    ghost view = { λ b. b.steps.items };
}

impl Branches {
    /// Nothing is noted. It takes no memory.
    pub fn new(alloc: Global) -> Branches
        ensures { result ≡ [] }
    {
        Branches {
            steps: Vec::new(alloc),
        }
    }

    /// Forgets all.
    pub fn clear(&mut self)
        ensures { self.new ≡ [] }
    {
        self.steps.clear();
    }

    /// What the steps of a branch led to, if it is noted.
    pub fn step(&self, branch: usize) -> Option<(usize, usize)>
        ensures { result ≡ step_at self.now branch }
    {
        match self.steps.as_slice().get(branch) {
            Some(step) => *step,
            None => None,
        }
    }

    /// Notes what the steps of a branch led to. Branches above 1,023 are not noted.
    pub fn note(&mut self, branch: usize, step: (usize, usize)) -> Result<(), AllocError>
        ensures { OnOk result ((k : ℕ) (s : ℕ × ℕ) → step_at self.new k ≡ Some s
            → (step_at self.old k ≡ Some s) ⊎ ((k ≡ branch) × (s ≡ step))) }
    {
        if branch >= 1024 {
            return Ok(());
        }
        if branch >= self.steps.len() {
            self.steps.resize(branch + 1, None)?;
        }
        self.steps[branch] = Some(step);
        Ok(())
    }
}
