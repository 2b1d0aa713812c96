use thiserror::Error;

/// The limit of a line that its tokens pass.
#[derive(Clone, Copy, PartialEq, Eq, Debug)]
pub enum TokenLimit {
    /// A number above 1,000,000, or above 1,000,000,000,000 where it stands after the word `gives`.
    Literal,
    /// A name of more than 32 bytes.
    NameBytes,
    /// More than 1,024 tokens.
    Tokens,
    /// More than 64 tokens that are `(` or `not`.
    Nesting,
}

/// Why a line has no tokens, or none that may stand in a text.
#[derive(Debug, Drop, Error)]
pub enum TokenError {
    #[error("a byte that is not allowed or begins no token")]
    Byte,
    #[error("a limit on tokens is passed: {0:?}")]
    Limit(TokenLimit),
    #[error("no memory")]
    Memory,
}
