use lin_form::Reply;

/// What a step leads to: the state after it, and the reply.
#[derive(Clone, Copy, Debug)]
pub struct Step<S> {
    pub state: S,
    /// All output values after the step.
    pub reply: Reply,
}
