ghost use Rattle.std.specs.Prelude.{◌≡◌, ◌<◌, length, IfOk};
ghost use Rattle.std.specs.List.{list_any};
ghost use Rattle.line_checks.specs.Answers.{Gives};
ghost use Rattle.chart_syntax.specs.Checks.{state_names, state_check, number_of, some_state_check, parent_number};
ghost use Rattle.chart_syntax.specs.Checks.{is_start_under, same_parent, has_line, depth_under};
ghost use Rattle.chart_syntax.specs.inside.Promises.{IsPartial};

use crate::error::{Kind, Refusal};
use crate::reader::{DeclaredState, Reader};
use chart_model::Action;
use lin_form::Name;
use sqlite_items::Items;

/// The number of a declared state.
pub fn state(reader: &Reader, name: Name) -> Result<usize, Refusal>
    ensures found { Gives (state_check reader.now name) (number_of name (state_names reader.now)) result }
    ensures within { IfOk result (λ number. number < length reader.now.states) }
{
    match reader.states.find(name) {
        Some(number) => Ok(number),
        None => Err(Refusal::Fault(Kind::Unknown)),
    }
}

/// The number of the state that contains a new one, if one does.
pub fn parent(reader: &Reader, name: Option<Name>) -> Result<Option<usize>, Refusal>
    ensures { Gives (some_state_check reader.now name) (parent_number reader.now name) result }
{
    let Some(name) = name else {
        return Ok(None);
    };
    match reader.states.find(name) {
        Some(number) => Ok(Some(number)),
        None => Err(Refusal::Fault(Kind::Unknown)),
    }
}

fn same_parent(one: Option<usize>, other: Option<usize>) -> bool
    ensures { result ≡ same_parent one other }
{
    match (one, other) {
        (None, None) => true,
        (Some(one), Some(other)) => one == other,
        _ => false,
    }
}

/// Whether one of the states is the start among those of a parent, or of the top.
pub fn has_start(states: &[DeclaredState], parent: Option<usize>) -> bool
    ensures { result ≡ list_any (is_start_under parent) states.now }
{
    states
        .iter()
        .any(|state| state.start && same_parent(state.parent, parent))
}

/// The depth of a state of this parent.
pub fn depth(reader: &Reader, parent: Option<usize>) -> usize
    requires { IsPartial reader.now }
    ensures { result ≡ depth_under reader.now parent }
{
    let Some(parent) = parent else {
        return 1;
    };
    match reader.states.as_slice().get(parent) {
        Some(above) => above.depth + 1,
        None => 1,
    }
}

/// Whether a state has its line on entry, or on exit, already.
pub fn has_line(lines: &[Option<Items<Action>>], number: usize) -> bool
    ensures { result ≡ has_line lines.now number }
{
    match lines.get(number) {
        Some(Some(_)) => true,
        _ => false,
    }
}
