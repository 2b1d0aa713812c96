use std::alloc::AllocError;
use thiserror::Error;

/// Why a chart has no list of atoms.
#[derive(Drop, Clone, Copy, PartialEq, Eq, Debug, Error)]
pub enum AtomError {
    /// An input's coefficient is above 1,000,000 in absolute value.
    #[error("a coefficient of an input is above 1000000 in absolute value")]
    Coefficient,
    /// There are more than 128 different atoms.
    #[error("more than 128 atoms")]
    TooMany,
    /// No memory is left.
    #[error("no memory")]
    Memory,
}

impl From<AllocError> for AtomError {
    ghost use Rattle.std.specs.Prelude.{◌≡◌};
    ghost use Rattle.guard_atoms.specs.declared.error.AtomError.TheVariants.{Memory};

    ghost from_gives = { λ _ e. e ≡ Memory };

    fn from(_: AllocError) -> AtomError {
        AtomError::Memory
    }
}
