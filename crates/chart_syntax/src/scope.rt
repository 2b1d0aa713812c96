//! What the names of a sum may stand for, by where the sum stands.
ghost use Rattle.std.specs.Prelude.{◌≡◌, ◌++◌};
ghost use Rattle.line_checks.specs.Names.{has_name};
ghost use Rattle.chart_syntax.specs.Scopes.{input_names, output_names, refusal_of};
ghost use Rattle.chart_syntax.specs.inside.Promises.{HasFew};

use crate::error::{Kind, Refusal};
use crate::reader::Reader;
use lin_form::Name;
use line_checks::{NameFault, Scope, Variable};

/// The inputs and memories, among which a guard's names are.
#[derive(Clone, Copy)]
pub struct GuardScope<'a> {
    pub reader: &'a Reader,
    pub ghost few: { HasFew reader.now },
}

impl<'a> Scope for GuardScope<'a> {
    ghost use Rattle.chart_syntax.specs.Scopes.{guard_scope};

    ghost names = { λ s. guard_scope s.reader.now };

    fn find(&self, name: Name) -> Result<Variable, NameFault> {
        if let Some(number) = self.reader.inputs.find(name) {
            return Ok(Variable::Input(number));
        }
        if let Some(number) = self.reader.memories.find(name) {
            return Ok(Variable::Memory(number));
        }
        if self.reader.outputs.has(name) {
            return Err(NameFault::Misuse);
        }
        Err(NameFault::Unknown)
    }
}

/// The inputs, among which an assumption's names are.
#[derive(Clone, Copy)]
pub struct AssumptionScope<'a> {
    pub reader: &'a Reader,
    pub ghost few: { HasFew reader.now },
}

impl<'a> Scope for AssumptionScope<'a> {
    ghost use Rattle.chart_syntax.specs.Scopes.{assumption_scope};

    ghost names = { λ s. assumption_scope s.reader.now };

    fn find(&self, name: Name) -> Result<Variable, NameFault> {
        match self.reader.inputs.find(name) {
            Some(number) => Ok(Variable::Input(number)),
            None => Err(NameFault::Unknown),
        }
    }
}

/// Whether an input or an output has the name.
fn is_misused(reader: &Reader, name: Name) -> bool
    ensures { result ≡ has_name name (input_names reader.now ++ output_names reader.now) }
{
    reader.inputs.has(name) || reader.outputs.has(name)
}

/// The memories, among which the names of an action's sum are.
#[derive(Clone, Copy)]
pub struct ActionScope<'a> {
    pub reader: &'a Reader,
    pub ghost few: { HasFew reader.now },
}

impl<'a> Scope for ActionScope<'a> {
    ghost use Rattle.chart_syntax.specs.Scopes.{action_scope};

    ghost names = { λ s. action_scope s.reader.now };

    fn find(&self, name: Name) -> Result<Variable, NameFault> {
        if let Some(number) = self.reader.memories.find(name) {
            return Ok(Variable::Memory(number));
        }
        if is_misused(self.reader, name) {
            return Err(NameFault::Misuse);
        }
        Err(NameFault::Unknown)
    }
}

/// Why a line is refused whose name is at fault.
pub fn name_refusal(fault: NameFault) -> Refusal
    ensures { result ≡ refusal_of fault }
{
    match fault {
        NameFault::Misuse => Refusal::Fault(Kind::Misuse),
        NameFault::Unknown => Refusal::Fault(Kind::Unknown),
    }
}
