//! The checks of a line that need no names to be looked up, each by itself.
ghost use Rattle.std.specs.Prelude.{◌≡◌, ◌<◌, ◌^◌, Some};
ghost use Rattle.line_forms.specs.declared.statement.Statement.TheVariants as says;
ghost use Rattle.line_checks.specs.Answers.{MakesCheck};
ghost use Rattle.chart_syntax.specs.Checks.{group_of, is_version, is_formed, first_word_check, order_check};
ghost use Rattle.chart_syntax.specs.Checks.{form_check, comparisons_check, range_check, start_check, count_check};
ghost use Rattle.chart_syntax.specs.Checks.{fault_check, limit_check, is_outside, is_bounded, memory_size};
ghost use Rattle.chart_syntax.specs.Checks.{is_constant, resolved_of, constant_in, parent_in, state_in};
ghost use Rattle.chart_syntax.specs.inside.Promises.{HasFew, IsPartial};

use crate::error::{Kind, Refusal, Which};
use crate::reader::Reader;
use crate::resolve::Resolved;
use crate::state::{depth, has_line, has_start};
use crate::value::value;
use lin_form::Comparison;
use line_checks::comparisons_left;
use line_forms::{Keyword, MemoryForm, ParsedLine, Statement};

const MOST_COMPARISONS: usize = 64;

const MOST_INPUTS: usize = 6;

const MOST_ASSUMPTIONS: usize = 16;

const MOST_OUTPUTS: usize = 8;

const MOST_MEMORIES: usize = 4;

const LARGEST_MEMORY_BOUND: u64 = 1_000;

const LARGEST_PRODUCT: u64 = 256;

const MOST_STATES: usize = 64;

const LARGEST_DEPTH: usize = 8;

const MOST_TRANSITIONS: usize = 256;

fn fault_if(met: bool, kind: Kind) -> Result<(), Refusal>
    ensures { MakesCheck (fault_check met kind) result }
{
    if met {
        return Err(Refusal::Fault(kind));
    }
    Ok(())
}

fn limit_if(passed: bool, which: Which) -> Result<(), Refusal>
    ensures { MakesCheck (limit_check passed which) result }
{
    if passed {
        return Err(Refusal::Limit(which));
    }
    Ok(())
}

fn group(version: u32, head: Option<Keyword>) -> u8
    ensures { result ≡ group_of version head }
{
    match head {
        Some(Keyword::Input) => 1,
        Some(Keyword::Assume) => { if version == 1 { 0 } else { 2 } }
        Some(Keyword::Output) => 3,
        Some(Keyword::Memory) => 4,
        Some(Keyword::State) => 5,
        Some(Keyword::Entry) => 6,
        Some(Keyword::Exit) => 6,
        Some(Keyword::On) => 6,
        _ => 0,
    }
}

fn states_version(form: &Option<Statement>) -> bool
    ensures { result ≡ is_version form.now }
{
    match form {
        Some(Statement::Chart(version)) => *version == 1 || *version == 2 || *version == 3,
        _ => false,
    }
}

/// Whether the first line states a version, and a later line begins with a word that begins lines.
pub fn check_first_word(reader: &Reader, parsed: &ParsedLine<Statement>) -> Result<(), Refusal>
    ensures { MakesCheck (first_word_check reader.now parsed.now) result }
{
    if reader.version == 0 {
        return fault_if(!states_version(&parsed.form), Kind::Version);
    }
    fault_if(group(reader.version, parsed.head) == 0, Kind::NoSuchLine)
}

/// Whether a later line stands after no line of a later group.
pub fn check_order(reader: &Reader, parsed: &ParsedLine<Statement>) -> Result<(), Refusal>
    ensures { MakesCheck (order_check reader.now parsed.now) result }
{
    fault_if(
        reader.version != 0 && group(reader.version, parsed.head) < reader.group,
        Kind::Misplaced,
    )
}

/// Whether what a line says is a form of the version.
fn is_form_of(version: u32, said: &Statement) -> bool
    ensures { result ≡ is_formed version (Some said.now) }
{
    match said {
        Statement::On(form) => !form.history || version == 3,
        _ => true,
    }
}

/// Whether the line's tokens derive from a form of the version.
pub fn check_form(reader: &Reader, parsed: &ParsedLine<Statement>) -> Result<(), Refusal>
    ensures { MakesCheck (form_check reader.now parsed.now) result }
{
    match &parsed.form {
        Some(said) => fault_if(!is_form_of(reader.version, said), Kind::Form),
        None => Err(Refusal::Fault(Kind::Form)),
    }
}

/// Whether the line's guard has at most 64 comparisons.
pub fn check_comparisons(reader: &Reader, said: &Statement) -> Result<(), Refusal>
    ensures { MakesCheck (comparisons_check reader.now said.now) result }
{
    let Statement::On(form) = said else {
        return Ok(());
    };
    let Some(guard) = &form.guard else {
        return Ok(());
    };
    match comparisons_left(guard.tree(), MOST_COMPARISONS) {
        Some(_) => Ok(()),
        None => Err(Refusal::Limit(Which::Comparisons)),
    }
}

/// Whether no input has a coefficient other than 0.
fn is_constant(comparison: &Comparison) -> bool
    ensures { result ≡ is_constant comparison.now }
{
    comparison
        .form
        .inputs
        .as_slice()
        .iter()
        .all(|coefficient| *coefficient == 0)
}

/// Whether an assumption speaks of no input.
fn has_no_input(resolved: &Resolved) -> bool
    ensures { result ≡ constant_in resolved.now }
{
    match resolved {
        Resolved::Assumption(comparison) => is_constant(comparison),
        _ => false,
    }
}

/// Whether the range has no number, or the value lies outside it.
fn is_outside(form: &MemoryForm) -> bool
    ensures { result ≡ is_outside form.now }
{
    let (lo, hi, initial) = (value(form.lo), value(form.hi), value(form.value));
    hi < lo || initial < lo || hi < initial
}

/// Whether the line's range has a number, its value lies in the range, and its assumption speaks of an input.
pub fn check_range(reader: &Reader, said: &Statement, resolved: &Resolved) -> Result<(), Refusal>
    requires { resolved.now ≡ resolved_of reader.now said.now }
    ensures { MakesCheck (range_check reader.now said.now) result }
{
    match said {
        Statement::Input(form) => fault_if(value(form.hi) < value(form.lo), Kind::Range),
        Statement::Assume(_) => fault_if(has_no_input(resolved), Kind::Range),
        Statement::Memory(form) => fault_if(is_outside(form), Kind::Range),
        _ => Ok(()),
    }
}

/// The number of the state around a new one, if one is named.
fn parent_in(resolved: &Resolved) -> Option<usize>
    ensures { result ≡ parent_in resolved.now }
{
    match resolved {
        Resolved::Parent(parent) => *parent,
        _ => None,
    }
}

/// The number of the state of a line on entry or exit.
fn state_in(resolved: &Resolved) -> usize
    ensures { result ≡ state_in resolved.now }
{
    match resolved {
        Resolved::Actions(number, _) => *number,
        _ => 0,
    }
}

/// Whether a new start is the only one there, and a line on entry or exit the only one of its state.
pub fn check_start(reader: &Reader, said: &Statement, resolved: &Resolved) -> Result<(), Refusal>
    requires { resolved.now ≡ resolved_of reader.now said.now }
    ensures { MakesCheck (start_check reader.now said.now) result }
{
    match said {
        Statement::State(form) => fault_if(
            form.start && has_start(reader.states.as_slice(), parent_in(resolved)),
            Kind::Start,
        ),
        Statement::Entry(_) => fault_if(
            has_line(reader.entries.as_slice(), state_in(resolved)),
            Kind::Twice,
        ),
        Statement::Exit(_) => fault_if(
            has_line(reader.exits.as_slice(), state_in(resolved)),
            Kind::Twice,
        ),
        _ => Ok(()),
    }
}

fn is_bounded(form: &MemoryForm) -> bool
    ensures { result ≡ is_bounded form.now }
{
    value(form.lo).unsigned_abs() <= LARGEST_MEMORY_BOUND
        && value(form.hi).unsigned_abs() <= LARGEST_MEMORY_BOUND
}

/// How many numbers the memory's range has.
pub fn range_size(form: &MemoryForm) -> u64
    ensures size { result ≡ memory_size form.now }
    ensures small { result < 2 ^ 34 }
{
    (value(form.hi) - value(form.lo)).unsigned_abs() + 1
}

fn check_memory_count(reader: &Reader, form: &MemoryForm) -> Result<(), Refusal>
    requires { HasFew reader.now }
    ensures { MakesCheck (count_check reader.now (says.Memory form.now)) result }
{
    if reader.memories.len() >= MOST_MEMORIES {
        return Err(Refusal::Limit(Which::Memories));
    }
    if !is_bounded(form) {
        return Err(Refusal::Limit(Which::Bound));
    }
    limit_if(
        reader.product * range_size(form) > LARGEST_PRODUCT,
        Which::Product,
    )
}

/// Whether there is room for what the line declares.
pub fn check_count(reader: &Reader, said: &Statement, resolved: &Resolved) -> Result<(), Refusal>
    requires partial { IsPartial reader.now }
    requires resolved { resolved.now ≡ resolved_of reader.now said.now }
    ensures { MakesCheck (count_check reader.now said.now) result }
{
    match said {
        Statement::Input(_) => limit_if(reader.inputs.len() >= MOST_INPUTS, Which::Inputs),
        Statement::Assume(_) => limit_if(
            reader.assumed.len() >= MOST_ASSUMPTIONS,
            Which::Assumptions,
        ),
        Statement::Output(_) => limit_if(reader.outputs.len() >= MOST_OUTPUTS, Which::Outputs),
        Statement::Memory(form) => check_memory_count(reader, form),
        Statement::State(_) => {
            if reader.states.len() >= MOST_STATES {
                return Err(Refusal::Limit(Which::States));
            }
            limit_if(
                depth(reader, parent_in(resolved)) > LARGEST_DEPTH,
                Which::Depth,
            )
        }
        Statement::On(_) => limit_if(
            reader.transitions.len() >= MOST_TRANSITIONS,
            Which::Transitions,
        ),
        _ => Ok(()),
    }
}
