ghost use Rattle.std.specs.Prelude.{length, option_map};
ghost use Rattle.std.specs.Option.{ForSome};
ghost use Rattle.line_forms.specs.Limits.{IsSmallGuard};
ghost use Rattle.line_checks.specs.Guards.{guard_of};
ghost use Rattle.chart_syntax.specs.Scopes.{guard_scope};
ghost use Rattle.chart_syntax.specs.Checks.{when_check};
ghost use Rattle.chart_syntax.specs.inside.Answers.{Builds};
ghost use Rattle.chart_syntax.specs.inside.Promises.{HasFew};

use crate::error::Refusal;
use crate::reader::Reader;
use crate::scope::{GuardScope, name_refusal};
use chart_model::Condition;
use line_checks::{Unresolved, resolved};
use line_forms::GuardForm;
use std::alloc::Global;
use text_lines::LineError;

/// The guard of a line over what is declared, if it has one.
pub fn condition(
    alloc: Global,
    reader: &Reader,
    guard: &Option<GuardForm>,
) -> Result<Option<Condition>, LineError<Refusal>>
    requires few { HasFew reader.now }
    requires small { ForSome guard.now IsSmallGuard }
    ensures { Builds (when_check reader.now guard.now)
        (option_map (guard_of (guard_scope reader.now) (length reader.now.inputs)) guard.now) result }
{
    let Some(guard) = guard else {
        return Ok(None);
    };
    match resolved(
        alloc,
        &GuardScope { reader },
        reader.inputs.len(),
        guard.tree(),
    ) {
        Ok(guard) => Ok(Some(Condition::new(guard))),
        Err(Unresolved::Fault(fault)) => Err(LineError::Refused(name_refusal(fault))),
        Err(Unresolved::Memory) => Err(LineError::Memory),
    }
}
