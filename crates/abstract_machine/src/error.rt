ghost use Rattle.std.specs.Prelude.{◌≡◌};

use std::alloc::{AllocError, AllocFailed};

/// Why a plan is not explored.
#[derive(Drop, Debug, thiserror::Error)]
pub enum ExploreError {
    /// It reaches more than 1,024 states on the witnesses.
    #[error("more than 1024 configurations are reached")]
    TooManyConfigurations,
    #[error("no memory")]
    Memory,
}

impl From<AllocError> for ExploreError {
    ghost use Rattle.abstract_machine.specs.declared.error.ExploreError.{ExploreError};

    ghost from_gives = { λ _ e. e ≡ ExploreError.Memory };

    fn from(_error: AllocError) -> ExploreError {
        ExploreError::Memory
    }
}

impl<T: Drop> From<AllocFailed<T>> for ExploreError {
    ghost use Rattle.abstract_machine.specs.declared.error.ExploreError.{ExploreError};

    ghost from_gives = { λ _ e. e ≡ ExploreError.Memory };

    fn from(_refused: AllocFailed<T>) -> ExploreError {
        ExploreError::Memory
    }
}
