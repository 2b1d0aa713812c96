ghost use Rattle.std.specs.Prelude.{◌≡◌, option_map};
ghost use Rattle.std.specs.List.{list_any};
ghost use Rattle.line_forms.specs.declared.statement.Statement.TheVariants as says;
ghost use Rattle.line_forms.specs.Limits.{IsSmallOn};
ghost use Rattle.line_checks.specs.Answers.{Gives};
ghost use Rattle.chart_syntax.specs.inside.Answers.{Builds};
ghost use Rattle.chart_syntax.specs.Checks.{state_names, number_of, is_parent, is_child_of, target_check};
ghost use Rattle.chart_syntax.specs.Checks.{names_check, transition_of};
ghost use Rattle.chart_syntax.specs.inside.Promises.{HasFew};

use crate::action::actions;
use crate::error::{Kind, Refusal};
use crate::guard::condition;
use crate::reader::{DeclaredState, Reader};
use crate::state::state;
use chart_model::Transition;
use lin_form::Name;
use line_forms::OnForm;
use std::alloc::Global;
use text_lines::LineError;

fn is_child_of(parent: usize, state: &DeclaredState) -> bool
    ensures { result ≡ is_child_of parent state.now }
{
    match state.parent {
        Some(number) => number == parent,
        None => false,
    }
}

fn is_parent(reader: &Reader, number: usize) -> bool
    ensures { result ≡ is_parent reader.now number }
{
    reader
        .states
        .as_slice()
        .iter()
        .any(|state| is_child_of(number, state))
}

/// The target, if there is one.
fn target(reader: &Reader, name: Option<Name>, history: bool) -> Result<Option<usize>, Refusal>
    ensures { Gives (target_check reader.now name history)
        (option_map (λ target. number_of target (state_names reader.now)) name) result }
{
    let Some(name) = name else {
        return Ok(None);
    };
    match reader.states.find(name) {
        Some(number) => {
            if history && !is_parent(reader, number) {
                return Err(Refusal::Fault(Kind::Misuse));
            }
            Ok(Some(number))
        }
        None => Err(Refusal::Fault(Kind::Unknown)),
    }
}

/// The transition of a line over what is declared.
pub fn transition(
    alloc: Global,
    reader: &Reader,
    form: &OnForm,
) -> Result<Transition, LineError<Refusal>>
    requires few { HasFew reader.now }
    requires small { IsSmallOn form.now }
    ensures { Builds (names_check reader.now (says.On form.now)) (transition_of reader.now form.now) result }
{
    let source = match state(reader, form.source) {
        Ok(source) => source,
        Err(refusal) => return Err(LineError::Refused(refusal)),
    };
    let guard = condition(alloc, reader, &form.guard)?;
    let effect = actions(alloc, reader, form.effect.as_slice())?;
    let target = match target(reader, form.target, form.history) {
        Ok(target) => target,
        Err(refusal) => return Err(LineError::Refused(refusal)),
    };
    Ok(Transition {
        source,
        guard,
        effect,
        target,
        history: form.history,
    })
}
