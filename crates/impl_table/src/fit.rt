ghost use Rattle.std.specs.Prelude.{◌≡◌, IfOk, IfErr};
ghost use Rattle.subject.specs.Domain.{IsFitting};
ghost use Rattle.impl_table.specs.Fitting.{is_same_input, inputs_difference, outputs_difference};
ghost use Rattle.impl_table.specs.Fitting.{first_difference, Tells};

use lin_form::{Input, Name, Signature};

/// The first difference of two signatures. Inputs and outputs are named by their numbers, from 0.
#[derive(Clone, Copy, PartialEq, Eq, Debug)]
pub enum Unfit {
    /// There are more or fewer inputs.
    Inputs,
    /// An input has another name or another range.
    Input(usize),
    /// There are more or fewer outputs.
    Outputs,
    /// An output has another name.
    Output(usize),
}

fn is_same_input(input: &Input, other: &Input) -> bool
    ensures { result ≡ is_same_input input.now other.now }
{
    input.name == other.name && input.lo == other.lo && input.hi == other.hi
}

/// The first input that differs, if there are as many.
fn fit_inputs(model: &[Input], other: &[Input]) -> Result<(), Unfit>
    ensures { Tells (inputs_difference model.now other.now) result }
{
    if model.len() != other.len() {
        return Err(Unfit::Inputs);
    }
    'inputs: for (number, input) in model.iter().enumerate() {
        if !is_same_input(input, &other[number]) {
            return Err(Unfit::Input(number));
        }
    }
    Ok(())
}

/// The first output that differs, if there are as many.
fn fit_outputs(model: &[Name], other: &[Name]) -> Result<(), Unfit>
    ensures { Tells (outputs_difference model.now other.now) result }
{
    if model.len() != other.len() {
        return Err(Unfit::Outputs);
    }
    'outputs: for (number, name) in model.iter().enumerate() {
        if *name != other[number] {
            return Err(Unfit::Output(number));
        }
    }
    Ok(())
}

/// Whether a signature fits that of a model: the first difference where it does not.
pub fn fits(model: &Signature, other: &Signature) -> Result<(), Unfit>
    ensures difference { Tells (first_difference model.now other.now) result }
    ensures fits { IfOk result (λ u. IsFitting model.now other.now) }
    ensures differs { IfErr result (λ unfit. IsFitting model.now other.now → ⊥) }
{
    match fit_inputs(model.inputs.as_slice(), other.inputs.as_slice()) {
        Ok(()) => {}
        Err(unfit) => return Err(unfit),
    }
    fit_outputs(model.outputs.as_slice(), other.outputs.as_slice())
}
