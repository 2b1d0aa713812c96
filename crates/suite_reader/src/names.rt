//! Names of inputs and outputs.
ghost use Rattle.std.specs.Prelude.{◌≡◌, nat_eq};
ghost use Rattle.std.specs.List.{list_all, list_any};
ghost use Rattle.std.specs.Cmp.Lexicographic.{pointwise};
ghost use Rattle.lin_form.specs.Name.{continues_name, spells_name, starts_name};
ghost use Rattle.suite_reading.specs.Checks.{is_reserved};

use lin_form::{Input, Name};

fn starts_name(byte: u8) -> bool
    ensures { result ≡ starts_name byte }
{
    byte.is_ascii_alphabetic() || byte == b'_'
}

fn continues_name(byte: u8) -> bool
    ensures { result ≡ continues_name byte }
{
    starts_name(byte) || byte.is_ascii_digit()
}

fn continue_name(bytes: &[u8]) -> bool
    ensures { result ≡ list_all continues_name bytes.now }
{
    bytes.iter().all(|byte| continues_name(*byte))
}

/// Whether the bytes are a name of any length.
pub(crate) fn spells_name(bytes: &[u8]) -> bool
    ensures { result ≡ spells_name bytes.now }
{
    match bytes {
        [first, rest @ ..] => starts_name(*first) && continue_name(rest),
        [] => false,
    }
}

/// Whether the name is a reserved word.
pub(crate) fn is_reserved(name: &Name) -> bool
    ensures { result ≡ is_reserved name.now }
{
    name.is_reserved()
}

/// Whether an input has this name.
pub(crate) fn is_input(inputs: &[Input], name: &Name) -> bool
    ensures { result ≡ list_any (λ input. pointwise nat_eq input.name name.now) inputs.now }
{
    inputs.iter().any(|input| input.name == *name)
}

/// Whether an output has this name.
pub(crate) fn is_output(outputs: &[Name], name: &Name) -> bool
    ensures { result ≡ list_any (λ output. pointwise nat_eq output name.now) outputs.now }
{
    outputs.iter().any(|output| *output == *name)
}
