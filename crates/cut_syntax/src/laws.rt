//! What holds of every text. The law is a function's contract; the function does nothing.
ghost use Rattle.std.specs.Prelude.{ℕ, List};
ghost use Rattle.lin_form.specs.declared.signature.Signature.{Signature};
ghost use Rattle.text_lines.specs.Reading.{IsDecided};
ghost use Rattle.cut_syntax.specs.Cuts.{ReadsCuts, RefusesCuts};

use line_forms::{CutsForm, one_parse, some_parse};

/// For each text there is exactly one reading as cuts over a signature, or exactly one refusal: not two, not both, and
/// it cannot be that there is neither.
pub fn cuts_or_refusal()
    ensures { (signature : Signature) (text : List ℕ)
        → IsDecided (ReadsCuts signature text) (RefusesCuts signature text) }
{
    one_parse::<CutsForm>();
    some_parse::<CutsForm>();
}
