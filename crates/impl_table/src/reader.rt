ghost use Rattle.std.specs.Prelude.{◌≡◌, ◌<◌, ◌≤◌, length, position, Some, IfOk, IfSome};
ghost use Rattle.std.specs.List.{list_any};
ghost use Rattle.line_checks.specs.Answers.{Finds, HasPlace};
ghost use Rattle.line_checks.specs.Names.{is_same, variable_of, name_check};
ghost use Rattle.impl_table.specs.Reading.{start, is_variable, state_of};

use crate::table::{Row, TableState};
use lin_form::Name;
use line_checks::{NameFault, Scope, Variable};
use line_forms::InputForm;
use sqlite_items::Items;
use std::alloc::Global;

/// What the lines read so far declare.
#[derive(Drop)]
pub struct Declared {
    /// Whether the first line was read.
    pub begun: bool,
    /// The group of the last line: 1 for inputs, 2 for outputs, 3 for states, 4 for rows; 0 before all of them.
    pub group: u8,
    pub inputs: Items<InputForm>,
    pub outputs: Items<Name>,
    pub states: Items<TableState>,
    pub rows: Items<Row>,
}

/// Nothing is declared.
pub fn begin(alloc: Global) -> Declared
    ensures { result ≡ start }
{
    Declared {
        begun: false,
        group: 0,
        inputs: Items::new(alloc),
        outputs: Items::new(alloc),
        states: Items::new(alloc),
        rows: Items::new(alloc),
    }
}

fn has_input(inputs: &[InputForm], name: Name) -> bool
    ensures { result ≡ list_any (λ f. is_same name f.name) inputs.now }
{
    inputs.iter().any(|form| name == form.name)
}

fn has_output(outputs: &[Name], name: Name) -> bool
    ensures { result ≡ list_any (is_same name) outputs.now }
{
    outputs.iter().any(|output| name == *output)
}

/// Whether an input or an output has the name.
pub fn is_variable(declared: &Declared, name: Name) -> bool
    ensures { result ≡ is_variable declared.now name }
{
    has_input(declared.inputs.as_slice(), name) || has_output(declared.outputs.as_slice(), name)
}

fn state_place(states: &[TableState], name: Name) -> Option<usize>
    ensures { result ≡ position (λ state. is_same name state.name) states.now }
{
    states.iter().position(|state| name == state.name)
}

/// The number of the state with the name.
pub fn state_number(declared: &Declared, name: Name) -> Option<usize>
    ensures { result ≡ state_of declared.now name }
{
    state_place(declared.states.as_slice(), name)
}

/// The number of the input with the name.
fn input_number(inputs: &[InputForm], name: Name) -> Option<usize>
    ensures number { result ≡ position (λ form. is_same name form.name) inputs.now }
    ensures within { IfSome result (λ i. i < length inputs.now) }
{
    inputs.iter().position(|form| name == form.name)
}

/// The inputs that were declared, at most six.
#[derive(Clone, Copy)]
pub struct InputNames<'a> {
    pub inputs: &'a [InputForm],
    pub ghost few: { length inputs.now ≤ 6 },
}

impl<'a> Scope for InputNames<'a> {
    ghost use Rattle.std.specs.Prelude.{map, []};

    ghost names = { λ s. record { inputs = map (λ f. f.name) s.inputs.now; memories = []; misused = [] } };

    fn find(&self, name: Name) -> Result<Variable, NameFault> {
        match input_number(self.inputs, name) {
            Some(number) => Ok(Variable::Input(number)),
            None => Err(NameFault::Unknown),
        }
    }
}
