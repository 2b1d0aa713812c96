//! What was read last, and which lines may stand after it.
ghost use Rattle.std.specs.Prelude.{◌≡◌};
ghost use Rattle.suite_reading.specs.Checks.{may_stand};

/// What was read last.
#[derive(Clone, Copy, PartialEq, Eq, Debug)]
pub enum Place {
    /// Nothing.
    Start,
    Suite,
    Inputs,
    Outputs,
    Bound,
    States,
    Classes,
    Cover,
    Marks,
    /// A line of a test to which more steps are to come.
    Steps,
    /// A whole test.
    Tests,
    End,
}

/// A kind of lines.
#[derive(Clone, Copy, PartialEq, Eq, Debug)]
pub enum LineKind {
    Suite,
    Input,
    Output,
    Bound,
    States,
    Class,
    Cover,
    Mark,
    Test,
    Step,
    End,
}

/// Whether a line of this kind may stand after what was read last.
pub fn may_stand(kind: LineKind, place: Place) -> bool
    ensures { result ≡ may_stand kind place }
{
    match kind {
        LineKind::Suite => place == Place::Start,
        LineKind::Input => place == Place::Suite || place == Place::Inputs,
        LineKind::Output => place == Place::Inputs || place == Place::Outputs,
        LineKind::Bound => place == Place::Outputs,
        LineKind::States => place == Place::Bound,
        LineKind::Class => place == Place::States || place == Place::Classes,
        LineKind::Cover => place == Place::Classes || place == Place::Cover,
        LineKind::Mark => place == Place::Classes || place == Place::Cover || place == Place::Marks,
        LineKind::Test => place == Place::Marks || place == Place::Tests,
        LineKind::Step => place == Place::Steps,
        LineKind::End => place == Place::Tests,
    }
}
