/// Where a token stands in its line: from the byte `from` to the byte before `to`, counted from 0.
#[derive(Clone, Copy)]
pub struct Span {
    pub from: usize,
    pub to: usize,
}

/// What stands at a byte of a line and behind the blanks from there on.
#[derive(Clone, Copy)]
pub enum Next {
    /// The line ends.
    End,
    /// A byte that is not allowed or begins no token.
    Fault,
    /// A token.
    Found(Span),
}
