//! Guards over the inputs of a signature among the tokens of a line.
ghost use Rattle.std.specs.Prelude.{IfOk, IfErr};
ghost use Rattle.chart_model.specs.Guard.{plain};
ghost use Rattle.line_tokens.specs.Limits.{IsRead};
ghost use Rattle.chart_syntax.specs.Reading.{IsRefusedBy};
ghost use Rattle.chart_syntax.specs.Runs.{IsGuardAt, RefusesGuard};

use crate::error::{ChartError, Kind, Which};
use chart_model::Guard;
use lin_form::Signature;
use line_checks::{GuardError, InputScope};
use line_tokens::Token;
use std::alloc::Global;

/// The longest guard over the inputs of a signature that begins at a token, and the number of the token after it, given
/// all tokens of the line.
///
/// Its errors have the line number 1. Of the causes the first is told: `Form` where no run of tokens derives from a
/// guard, the limit on comparisons where the longest run has more than 64, and `Unknown` where it has a name that is no
/// input.
pub fn guard_at(
    alloc: Global,
    line: &[u8],
    tokens: &[Token],
    at: usize,
    signature: &Signature,
) -> Result<(Guard, usize), ChartError>
    requires { IsRead line.now tokens.now }
    ensures guard { IfOk result (λ r. IsGuardAt line.now tokens.now signature.now at r.1 (plain r.0)) }
    ensures refused { IfErr result (IsRefusedBy (RefusesGuard line.now tokens.now signature.now at)) }
{
    let scope = InputScope { signature };
    let width = signature.inputs.as_slice().len();
    match line_checks::guard_at(alloc, line, tokens, at, &scope, width) {
        Ok(found) => Ok(found),
        Err(GuardError::Form) => Err(ChartError::Fault {
            line: 1,
            kind: Kind::Form,
        }),
        Err(GuardError::Comparisons) => Err(ChartError::Limit {
            line: 1,
            which: Which::Comparisons,
        }),
        Err(GuardError::Fault(_)) => Err(ChartError::Fault {
            line: 1,
            kind: Kind::Unknown,
        }),
        Err(GuardError::Memory) => Err(ChartError::Memory),
    }
}
