ghost use Rattle.std.specs.Prelude.{◌≡◌, ◌≤◌, length, Some, IfOk, IfErr};
ghost use Rattle.std.specs.Option.{ForSome};
ghost use Rattle.line_forms.specs.CutForms.{IsSmallCutsForm};
ghost use Rattle.chart_syntax.specs.Reading.{IsRefusedBy};
ghost use Rattle.cut_syntax.specs.Cuts.{ReadsCuts, RefusesCuts, AreOver, line_check, cut_check, first_check, cut_of};
ghost use Rattle.cut_syntax.specs.inside.Lines.{Adds, IsOver};

use chart_model::Cuts;
use chart_syntax::{ChartError, Kind, Refusal, at_line, token_error};
use lin_form::{Comparison, Signature};
use line_checks::{InputScope, comparison};
use line_forms::{CutsForm, Keyword, LineParser, ParsedLine, small_parse};
use std::alloc::Global;
use text_lines::{LineError, TextError, TextReader, read_text};

/// What the first line adds, which is nothing.
fn first(signature: &Signature, form: &Option<CutsForm>) -> Result<Option<Comparison>, Refusal>
    ensures value { Adds (first_check form.now) (cut_of signature.now form.now) result }
    ensures over { IfOk result (IsOver signature.now) }
{
    match form {
        Some(CutsForm::Version(1)) => Ok(None),
        _ => Err(Refusal::Fault(Kind::Version)),
    }
}

/// The comparison of a cut over the inputs of the signature.
fn resolved(
    alloc: Global,
    signature: &Signature,
    form: &CutsForm,
) -> Result<Option<Comparison>, Refusal>
    requires { IsSmallCutsForm form.now }
    ensures value { Adds (cut_check signature.now (Some form.now)) (cut_of signature.now (Some form.now)) result }
    ensures over { IfOk result (IsOver signature.now) }
{
    let CutsForm::Cut(test) = form else {
        return Err(Refusal::Fault(Kind::Form));
    };
    let scope = InputScope { signature };
    match comparison(alloc, &scope, signature.inputs.as_slice().len(), test) {
        Ok(comparison) => Ok(Some(comparison)),
        Err(_) => Err(Refusal::Fault(Kind::Unknown)),
    }
}

/// The comparison of a line that begins with `cut`.
fn cut(
    alloc: Global,
    signature: &Signature,
    form: &Option<CutsForm>,
) -> Result<Option<Comparison>, Refusal>
    requires { ForSome form.now IsSmallCutsForm }
    ensures value { Adds (cut_check signature.now form.now) (cut_of signature.now form.now) result }
    ensures over { IfOk result (IsOver signature.now) }
{
    match form {
        Some(form) => resolved(alloc, signature, form),
        None => Err(Refusal::Fault(Kind::Form)),
    }
}

/// What a line adds, where a line was read before it or not.
fn added(
    alloc: Global,
    signature: &Signature,
    begun: bool,
    parsed: &ParsedLine<CutsForm>,
) -> Result<Option<Comparison>, Refusal>
    requires { ForSome parsed.now.form IsSmallCutsForm }
    ensures value { Adds (line_check signature.now begun parsed.now) (cut_of signature.now parsed.now.form) result }
    ensures over { IfOk result (IsOver signature.now) }
{
    if !begun {
        return first(signature, &parsed.form);
    }
    match parsed.head {
        Some(Keyword::Cut) => cut(alloc, signature, &parsed.form),
        _ => Err(Refusal::Fault(Kind::NoSuchLine)),
    }
}

/// Reads cuts over a signature.
#[derive(Drop)]
struct CutsReader<'a> {
    parser: LineParser,
    signature: &'a Signature,
    begun: bool,
    cuts: Vec<Comparison>,
}

impl<'a> TextReader for CutsReader<'a> {
    type Refusal = Refusal;

    ghost use Rattle.cut_syntax.specs.Cuts.{CutsState, TakesCut, version_missing};
    ghost use Rattle.cut_syntax.specs.inside.Lines.{AreRead};

    ghost State = { CutsState };

    ghost state = { λ r. record { signature = r.signature.now; begun = r.begun; cuts = r.cuts.items } };

    ghost Kept = { AreRead };

    ghost Step = { TakesCut };

    ghost end = { version_missing };

    fn take(&mut self, alloc: Global, line: &[u8]) -> Result<(), LineError<Refusal>> {
        small_parse::<CutsForm>();
        let parsed = match self.parser.parse::<CutsForm>(alloc, line) {
            Ok(Some(parsed)) => parsed,
            Ok(None) => return Ok(()),
            Err(error) => return Err(token_error(error)),
        };
        let cut = match added(alloc, self.signature, self.begun, &parsed) {
            Ok(cut) => cut,
            Err(refusal) => return Err(LineError::Refused(refusal)),
        };
        self.begun = true;
        let Some(cut) = cut else {
            return Ok(());
        };
        if self.cuts.push(cut).is_err() {
            return Err(LineError::Memory);
        }
        Ok(())
    }

    fn end(&self) -> Option<Refusal> {
        if self.begun {
            None
        } else {
            Some(Refusal::Fault(Kind::Version))
        }
    }
}

/// The cuts over a signature that a text reads as.
///
/// A text that is none is refused with the number of the first line that a check meets, from 1, and what the first such
/// check on it tells: `Version` where the first line is not `cuts 1`, `NoSuchLine` where a later line does not begin
/// with `cut`, `Form` where it is no cut, `Unknown` where a name is no input. A text without lines that say something
/// lacks its version, which has the number after the last line's.
pub fn read_cuts(alloc: Global, text: &[u8], signature: &Signature) -> Result<Cuts, ChartError>
    ensures read { IfOk result (ReadsCuts signature.now text.now) }
    ensures refused { IfErr result (IsRefusedBy (RefusesCuts signature.now text.now)) }
    ensures width { IfOk result (AreOver signature.now) }
{
    let mut reader = CutsReader {
        parser: LineParser::new(alloc),
        signature,
        begun: false,
        cuts: Vec::new(alloc),
    };
    match read_text(alloc, text, &mut reader) {
        Ok(()) => {}
        Err(TextError::Refused(line, refusal)) => {
            return Err(at_line(line, LineError::Refused(refusal)));
        }
        Err(TextError::Memory) => return Err(ChartError::Memory),
    }
    let CutsReader {
        parser: _,
        signature: _,
        begun: _,
        cuts,
    } = reader;
    Ok(Cuts::from_vec(cuts))
}
