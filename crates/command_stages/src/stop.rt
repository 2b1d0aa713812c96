ghost use Rattle.std.specs.Prelude.{◌≡◌, ◌≤◌, length};
ghost use Rattle.command_stages.specs.Report.{status_of_refusal, status_of_departure, departure_word, status_of_stop, source_of, line_of_stop, before_of, word_of, number_of, bounds_of, kind_word, limit_word, suite_kind_word, suite_limit_word, place_word, number_in, quantity_word};

use chart_syntax::{Kind, Which};
use suite_reading::{SuiteKind, SuiteWhich};

/// Why the answer to a command is no text. `name` is the number of the word that names the text that is refused, counted
/// from 0; lines count from 1.
#[derive(Clone, Copy, PartialEq, Eq, Debug)]
pub enum Refusal {
    /// A text has a fault.
    Fault {
        name: usize,
        line: usize,
        kind: Kind,
    },
    /// A text passes a limit.
    Limit {
        name: usize,
        line: usize,
        which: Which,
    },
    /// The text of a suite has a fault.
    SuiteFault {
        name: usize,
        line: usize,
        kind: SuiteKind,
    },
    /// The text of a suite passes a limit.
    SuiteLimit {
        name: usize,
        line: usize,
        which: SuiteWhich,
    },
    /// A text is too long.
    TooLong {
        name: usize,
    },
    /// No input vector is as the chart's assumptions say.
    NoInput {
        name: usize,
    },
    /// The implementation's signature is not the chart's: the first place that differs.
    Unfit {
        name: usize,
        place: SignaturePlace,
    },
    /// There is more of something than its limit.
    Beyond(Quantity),
    /// The bound is below the chart's number of states.
    BoundBelow {
        bound: usize,
        states: usize,
    },
}

/// What has a limit that is passed by no line of a text.
#[derive(Clone, Copy, PartialEq, Eq, Debug)]
pub enum Quantity {
    /// The coefficients of inputs, in absolute value.
    Coefficient,
    /// The atoms.
    Atoms,
    /// The classes.
    Classes,
    /// The configurations that are reached.
    Configurations,
    /// The product of steps.
    Steps,
}

/// A place in a signature. Inputs and outputs count from 1.
#[derive(Clone, Copy, PartialEq, Eq, Debug)]
pub enum SignaturePlace {
    /// How many inputs there are.
    Inputs,
    /// The name or the range of an input.
    Input(usize),
    /// How many outputs there are.
    Outputs,
    /// The name of an output.
    Output(usize),
}

/// What is read from.
#[derive(Clone, Copy, PartialEq, Eq, Debug)]
pub enum Source {
    /// The text that the word with this number names.
    Word(usize),
    /// The replies that come in.
    Replies,
}

/// Why a call departs from its answer.
#[derive(Clone, Copy, PartialEq, Eq, Debug)]
pub enum Departure {
    /// There was no memory.
    NoMemory,
    /// A read failed.
    Unread(Source),
    /// A write failed.
    WriteFault,
}

/// Why a command comes to no text: the words are none, the answer is a refusal, or the call departs from its answer.
#[derive(Clone, Copy, PartialEq, Eq, Debug)]
pub enum Stop {
    /// The words are no command.
    NoCommand,
    /// The answer is a refusal.
    Refused(Refusal),
    /// The call departs from its answer.
    Departed(Departure),
}

impl Refusal {
    /// The status of the program.
    pub fn status(self) -> u8
        ensures { result ≡ status_of_refusal self }
    {
        match self {
            Refusal::Fault { .. } | Refusal::SuiteFault { .. } => 3,
            Refusal::NoInput { .. } | Refusal::Unfit { .. } => 3,
            Refusal::Limit { .. } | Refusal::SuiteLimit { .. } | Refusal::TooLong { .. } => 4,
            Refusal::Beyond(_) | Refusal::BoundBelow { .. } => 4,
        }
    }
}

impl Departure {
    /// The status of the program.
    pub fn status(self) -> u8
        ensures { result ≡ status_of_departure self }
    {
        match self {
            Departure::NoMemory => 6,
            Departure::Unread(_) | Departure::WriteFault => 5,
        }
    }

    /// The word for why.
    pub fn word(self) -> &'static [u8]
        ensures word { result.now ≡ departure_word self }
        ensures short { length result.now ≤ 20 }
    {
        match self {
            Departure::NoMemory => b"no memory",
            Departure::Unread(_) => b"read fault",
            Departure::WriteFault => b"write fault",
        }
    }
}

impl Stop {
    /// The status of the program.
    pub fn status(self) -> u8
        ensures { result ≡ status_of_stop self }
    {
        match self {
            Stop::NoCommand => 2,
            Stop::Refused(refusal) => refusal.status(),
            Stop::Departed(departure) => departure.status(),
        }
    }

    /// What the line on `err` names.
    pub fn source(self) -> Option<Source>
        ensures { result ≡ source_of self }
    {
        match self {
            Stop::Departed(Departure::Unread(source)) => Some(source),
            Stop::Refused(Refusal::Fault { name, .. }) => Some(Source::Word(name)),
            Stop::Refused(Refusal::Limit { name, .. }) => Some(Source::Word(name)),
            Stop::Refused(Refusal::SuiteFault { name, .. }) => Some(Source::Word(name)),
            Stop::Refused(Refusal::SuiteLimit { name, .. }) => Some(Source::Word(name)),
            Stop::Refused(Refusal::TooLong { name }) => Some(Source::Word(name)),
            Stop::Refused(Refusal::NoInput { name }) => Some(Source::Word(name)),
            Stop::Refused(Refusal::Unfit { name, .. }) => Some(Source::Word(name)),
            _ => None,
        }
    }

    /// The line of the text that the line on `err` names.
    pub fn line(self) -> Option<usize>
        ensures { result ≡ line_of_stop self }
    {
        match self {
            Stop::Refused(Refusal::Fault { line, .. }) => Some(line),
            Stop::Refused(Refusal::Limit { line, .. }) => Some(line),
            Stop::Refused(Refusal::SuiteFault { line, .. }) => Some(line),
            Stop::Refused(Refusal::SuiteLimit { line, .. }) => Some(line),
            _ => None,
        }
    }

    /// What stands before the word for why.
    pub fn before(self) -> &'static [u8]
        ensures text { result.now ≡ before_of self }
        ensures short { length result.now ≤ 20 }
    {
        match self {
            Stop::Refused(Refusal::Limit { .. } | Refusal::TooLong { .. }) => b": limit ",
            Stop::Refused(Refusal::SuiteLimit { .. }) => b": limit ",
            Stop::Refused(Refusal::Fault { .. } | Refusal::NoInput { .. }) => b": ",
            Stop::Refused(Refusal::SuiteFault { .. }) => b": ",
            Stop::Refused(Refusal::Unfit { .. }) => b": unfit ",
            Stop::Refused(Refusal::Beyond(_)) => b"limit ",
            Stop::Departed(Departure::Unread(_)) => b": ",
            _ => b"",
        }
    }

    /// The word for why.
    pub fn word(self) -> &'static [u8]
        ensures text { result.now ≡ word_of self }
        ensures short { length result.now ≤ 20 }
    {
        match self {
            Stop::NoCommand => b"no such command",
            Stop::Refused(Refusal::Fault { kind, .. }) => kind_word(kind),
            Stop::Refused(Refusal::Limit { which, .. }) => limit_word(which),
            Stop::Refused(Refusal::SuiteFault { kind, .. }) => suite_kind_word(kind),
            Stop::Refused(Refusal::SuiteLimit { which, .. }) => suite_limit_word(which),
            Stop::Refused(Refusal::TooLong { .. }) => b"bytes",
            Stop::Refused(Refusal::NoInput { .. }) => b"no input",
            Stop::Refused(Refusal::Unfit { place, .. }) => place_word(place),
            Stop::Refused(Refusal::Beyond(quantity)) => quantity_word(quantity),
            Stop::Refused(Refusal::BoundBelow { .. }) => b"bound ",
            Stop::Departed(departure) => departure.word(),
        }
    }

    /// The number that stands after the word.
    pub fn number(self) -> Option<usize>
        ensures { result ≡ number_of self }
    {
        match self {
            Stop::Refused(Refusal::Unfit { place, .. }) => place.number(),
            _ => None,
        }
    }

    /// The bound and the number of states that stand after the word.
    pub fn bounds(self) -> Option<(usize, usize)>
        ensures { result ≡ bounds_of self }
    {
        match self {
            Stop::Refused(Refusal::BoundBelow { bound, states }) => Some((bound, states)),
            _ => None,
        }
    }
}

impl SignaturePlace {
    /// The number of the input or the output.
    pub fn number(self) -> Option<usize>
        ensures { result ≡ number_in self }
    {
        match self {
            SignaturePlace::Input(number) | SignaturePlace::Output(number) => Some(number),
            SignaturePlace::Inputs | SignaturePlace::Outputs => None,
        }
    }
}

/// The word for a place in a signature.
pub fn place_word(place: SignaturePlace) -> &'static [u8]
    ensures word { result.now ≡ place_word place }
    ensures short { length result.now ≤ 20 }
{
    match place {
        SignaturePlace::Inputs => b"inputs",
        SignaturePlace::Input(_) => b"input ",
        SignaturePlace::Outputs => b"outputs",
        SignaturePlace::Output(_) => b"output ",
    }
}

/// The word for a quantity.
pub fn quantity_word(quantity: Quantity) -> &'static [u8]
    ensures word { result.now ≡ quantity_word quantity }
    ensures short { length result.now ≤ 20 }
{
    match quantity {
        Quantity::Coefficient => b"coefficient",
        Quantity::Atoms => b"atoms",
        Quantity::Classes => b"classes",
        Quantity::Configurations => b"configurations",
        Quantity::Steps => b"steps",
    }
}

/// The word for a kind of fault.
pub fn kind_word(kind: Kind) -> &'static [u8]
    ensures word { result.now ≡ kind_word kind }
    ensures short { length result.now ≤ 20 }
{
    match kind {
        Kind::Byte => b"byte",
        Kind::Version => b"version",
        Kind::NoSuchLine => b"line",
        Kind::Misplaced => b"order",
        Kind::Form => b"form",
        Kind::Double => b"double",
        Kind::Unknown => b"unknown",
        Kind::Misuse => b"misuse",
        Kind::Range => b"range",
        Kind::Start => b"start",
        Kind::Twice => b"twice",
        Kind::OutOfBox => b"box",
        Kind::Missing => b"missing",
    }
}

/// The word for a limit.
pub fn limit_word(which: Which) -> &'static [u8]
    ensures word { result.now ≡ limit_word which }
    ensures short { length result.now ≤ 20 }
{
    match which {
        Which::Literal => b"literal",
        Which::NameBytes => b"name",
        Which::Tokens => b"tokens",
        Which::Nesting => b"nesting",
        Which::Comparisons => b"comparisons",
        Which::Inputs => b"inputs",
        Which::Assumptions => b"assumptions",
        Which::Outputs => b"outputs",
        Which::Memories => b"memories",
        Which::Product => b"product",
        Which::Bound => b"bound",
        Which::States => b"states",
        Which::Depth => b"depth",
        Which::Transitions => b"transitions",
        Which::Rows => b"rows",
    }
}

/// The word for a kind of fault of a suite's text.
pub fn suite_kind_word(kind: SuiteKind) -> &'static [u8]
    ensures word { result.now ≡ suite_kind_word kind }
    ensures short { length result.now ≤ 20 }
{
    match kind {
        SuiteKind::Form => b"form",
        SuiteKind::Fact => b"fact",
        SuiteKind::Vector => b"vector",
        SuiteKind::Conflict => b"conflict",
        SuiteKind::Count => b"count",
        SuiteKind::End => b"end",
    }
}

/// The word for a limit of a suite's text.
pub fn suite_limit_word(which: SuiteWhich) -> &'static [u8]
    ensures word { result.now ≡ suite_limit_word which }
    ensures short { length result.now ≤ 20 }
{
    match which {
        SuiteWhich::Literal => b"literal",
        SuiteWhich::NameBytes => b"name",
        SuiteWhich::Inputs => b"inputs",
        SuiteWhich::Outputs => b"outputs",
        SuiteWhich::Classes => b"classes",
    }
}
