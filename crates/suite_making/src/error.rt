ghost use Rattle.std.specs.Prelude.{◌≡◌};

use std::alloc::AllocError;
use suite_build::BuildError;

/// Why no suite is made.
#[derive(Drop, Debug, thiserror::Error)]
pub enum MakeError {
    /// The plan reaches more than 1,024 states on the witnesses.
    #[error("more than 1024 configurations are reached")]
    TooManyConfigurations,
    /// The bound is below the plan's number of states.
    #[error("the bound is below {states} states")]
    BoundBelow { states: usize },
    /// The product of steps is above 20,000,000.
    #[error("more than 20000000 steps")]
    TooManySteps,
    #[error("no memory")]
    Memory,
}

impl From<AllocError> for MakeError {
    ghost use Rattle.suite_making.specs.declared.error.MakeError.{MakeError};

    ghost from_gives = { λ _ e. e ≡ MakeError.Memory };

    fn from(_error: AllocError) -> MakeError {
        MakeError::Memory
    }
}

impl From<BuildError> for MakeError {
    ghost use Rattle.suite_making.specs.inside.Refusals.{refusal_of};

    ghost from_gives = { λ error e. e ≡ refusal_of error };

    fn from(error: BuildError) -> MakeError {
        match error {
            BuildError::BoundBelow { n } => MakeError::BoundBelow { states: n },
            BuildError::TooManySteps => MakeError::TooManySteps,
            BuildError::Memory => MakeError::Memory,
        }
    }
}
