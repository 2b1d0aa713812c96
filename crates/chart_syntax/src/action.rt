ghost use Rattle.std.specs.Prelude.{◌≡◌, map};
ghost use Rattle.std.specs.List.{All};
ghost use Rattle.line_forms.specs.Limits.{IsSmallAction};
ghost use Rattle.line_checks.specs.Answers.{Finds, Gives};
ghost use Rattle.chart_syntax.specs.inside.Answers.{Builds};
ghost use Rattle.chart_syntax.specs.Checks.{place_of_name, place_check, action_check, action_of, actions_check};
ghost use Rattle.chart_syntax.specs.Checks.{actions_of};
ghost use Rattle.chart_syntax.specs.inside.Promises.{HasFew};

use crate::error::{Kind, Refusal};
use crate::reader::Reader;
use crate::scope::{ActionScope, name_refusal};
use chart_model::{Action, Place};
use lin_form::Name;
use line_checks::value_form;
use line_forms::ActionForm;
use sqlite_items::Items;
use std::alloc::Global;
use text_lines::LineError;

/// What an action assigns.
fn place(reader: &Reader, name: Name) -> Result<Place, Refusal>
    ensures { Finds (place_of_name reader.now name) (place_check reader.now name) result }
{
    if let Some(number) = reader.memories.find(name) {
        return Ok(Place::Memory(number));
    }
    if let Some(number) = reader.outputs.find(name) {
        return Ok(Place::Output(number));
    }
    if reader.inputs.has(name) {
        return Err(Refusal::Fault(Kind::Misuse));
    }
    Err(Refusal::Fault(Kind::Unknown))
}

fn action(alloc: Global, reader: &Reader, form: &ActionForm) -> Result<Action, Refusal>
    requires few { HasFew reader.now }
    requires small { IsSmallAction form.now }
    ensures { Gives (action_check reader.now form.now) (action_of reader.now form.now) result }
{
    let place = place(reader, form.name)?;
    let scope = ActionScope { reader };
    match value_form(alloc, &scope, reader.inputs.len(), form.sum.as_slice()) {
        Ok(value) => Ok(Action { place, value }),
        Err(fault) => Err(name_refusal(fault)),
    }
}

/// The actions of a line over what is declared.
pub fn actions(
    alloc: Global,
    reader: &Reader,
    forms: &[ActionForm],
) -> Result<Items<Action>, LineError<Refusal>>
    requires few { HasFew reader.now }
    requires small { All IsSmallAction forms.now }
    ensures { Builds (actions_check reader.now forms.now) (actions_of reader.now forms.now) result }
{
    let Ok(none) = Vec::with_capacity(alloc, forms.len()) else {
        return Err(LineError::Memory);
    };
    let mut actions = Items::from_vec(none);
    'forms: for form in forms {
        let action = match action(alloc, reader, form) {
            Ok(action) => action,
            Err(refusal) => return Err(LineError::Refused(refusal)),
        };
        if actions.push(action).is_err() {
            return Err(LineError::Memory);
        }
    }
    Ok(actions)
}
