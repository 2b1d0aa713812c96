ghost use Rattle.std.specs.Prelude.{◌≡◌, ◌<◌, ◌≤◌, length, map, position, Some, IfOk, IfSome};
ghost use Rattle.line_checks.specs.Names.{Names, is_same, variable_of, name_check};
ghost use Rattle.line_checks.specs.Answers.{Finds, HasPlace};

use lin_form::{Input, Name, Signature};

/// What a name in a sum stands for, by its number in order of declaration.
#[derive(Clone, Copy)]
pub enum Variable {
    Input(usize),
    Memory(usize),
}

/// Why a name stands for nothing.
#[derive(Clone, Copy)]
pub enum NameFault {
    Misuse,
    Unknown,
}

/// What the names of a sum may stand for.
pub trait Scope {
    ghost names: { Self → Names };

    /// What a name stands for.
    fn find(&self, name: Name) -> Result<Variable, NameFault>
        ensures found { Finds (variable_of (names self.now) name) (name_check (names self.now) name) result }
        ensures within { IfOk result (λ v. HasPlace (Some v)) };
}

/// The number of the first input with the name.
fn place(inputs: &[Input], name: Name) -> Option<usize>
    ensures place { result ≡ position (λ i. is_same name i.name) inputs.now }
    ensures within { IfSome result (λ i. i < length inputs.now) }
{
    inputs.iter().position(|input| name == input.name)
}

/// The inputs of a signature.
#[derive(Clone, Copy)]
pub struct InputScope<'a> {
    pub signature: &'a Signature,
}

impl<'a> Scope for InputScope<'a> {
    ghost use Rattle.line_checks.specs.Names.{input_scope};

    ghost names = { λ s. input_scope s.signature.now };

    fn find(&self, name: Name) -> Result<Variable, NameFault> {
        match place(self.signature.inputs.as_slice(), name) {
            Some(number) => Ok(Variable::Input(number)),
            None => Err(NameFault::Unknown),
        }
    }
}
