use lin_form::{Reply, Vector};

/// An entry of a finite map: in a state, the input leads to the next state and gets the reply.
#[derive(Drop, Debug)]
pub struct Case {
    pub state: u32,
    pub input: Vector,
    pub next: u32,
    pub reply: Reply,
}
