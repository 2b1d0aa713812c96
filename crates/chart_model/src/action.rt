use lin_form::Form;

/// What an action assigns, by its number in order of declaration, from 0.
#[derive(Clone, Copy, PartialEq, Eq, Debug)]
pub enum Place {
    Memory(usize),
    Output(usize),
}

/// The assignment of a sum over memories to a memory or an output.
#[derive(Drop)]
pub struct Action {
    pub place: Place,
    pub value: Form,
}
