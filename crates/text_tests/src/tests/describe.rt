//! Charts, words, tokens and refusals as texts.
use chart_model::Cuts;
use chart_syntax::{
    Action, Chart, ChartError, Guard, Memory, State, Token, Transition, guard_at, guard_end,
    read_chart, read_word, tokens,
};
use cut_syntax::read_cuts;
use impl_table::{Table, read_table};
use lin_form::{Comparison, Form, Signature};
use std::alloc::{AllocError, Global};

fn describe_form(text: &mut String, form: &Form) -> Result<(), AllocError> {
    let inputs = form.inputs.as_slice();
    let memory = form.memory.as_slice();
    write!(text, "{inputs:?} {memory:?} {}", form.constant)
}

fn describe_comparison(text: &mut String, comparison: &Comparison) -> Result<(), AllocError> {
    write!(text, "{:?} ", comparison.relation)?;
    describe_form(text, &comparison.form)
}

fn describe_guard(text: &mut String, guard: &Guard) -> Result<(), AllocError> {
    match guard {
        Guard::Test(comparison) => describe_comparison(text, comparison),
        Guard::Not(inner) => {
            write!(text, "not(")?;
            describe_guard(text, inner)?;
            write!(text, ")")
        }
        Guard::And(left, right) => {
            write!(text, "and(")?;
            describe_guard(text, left)?;
            write!(text, "; ")?;
            describe_guard(text, right)?;
            write!(text, ")")
        }
        Guard::Or(left, right) => {
            write!(text, "or(")?;
            describe_guard(text, left)?;
            write!(text, "; ")?;
            describe_guard(text, right)?;
            write!(text, ")")
        }
    }
}

fn describe_actions(text: &mut String, label: &str, actions: &[Action]) -> Result<(), AllocError> {
    for action in actions {
        write!(text, " {label} {:?} = ", action.place)?;
        describe_form(text, &action.value)?;
    }
    Ok(())
}

fn describe_memory(text: &mut String, memory: &Memory) -> Result<(), AllocError> {
    write!(text, "memory {} {} ", memory.name.text(), memory.lo)?;
    writeln!(text, "{} {}", memory.hi, memory.initial)
}

fn describe_state(text: &mut String, state: &State) -> Result<(), AllocError> {
    write!(text, "state {} {:?}", state.name.text(), state.parent)?;
    if state.start {
        write!(text, " start")?;
    }
    describe_actions(text, "entry", state.entry.as_slice())?;
    describe_actions(text, "exit", state.exit.as_slice())?;
    writeln!(text)
}

fn describe_transition(text: &mut String, transition: &Transition) -> Result<(), AllocError> {
    write!(text, "on {}", transition.source)?;
    if let Some(condition) = &transition.guard {
        write!(text, " when ")?;
        describe_guard(text, condition.guard())?;
    }
    describe_actions(text, "do", transition.effect.as_slice())?;
    if let Some(target) = transition.target {
        write!(text, " go {target}")?;
    }
    if transition.history {
        write!(text, " history")?;
    }
    Ok(())
}

fn describe_names(text: &mut String, chart: &Chart) -> Result<(), AllocError> {
    for input in chart.signature.inputs.as_slice() {
        writeln!(
            text,
            "input {} {} {}",
            input.name.text(),
            input.lo,
            input.hi
        )?;
    }
    let values = chart.initial.as_slice().iter();
    for (name, value) in chart.signature.outputs.as_slice().iter().zip(values) {
        writeln!(text, "output {} {}", name.text(), *value)?;
    }
    Ok(())
}

/// All that a chart holds, a line for each thing.
pub fn describe_chart(alloc: Global, chart: &Chart) -> Result<String, AllocError> {
    let mut text = String::new(alloc);
    describe_names(&mut text, chart)?;
    for comparison in chart.assumed.as_slice() {
        write!(text, "assume ")?;
        describe_comparison(&mut text, comparison)?;
        writeln!(text)?;
    }
    for memory in chart.memories.as_slice() {
        describe_memory(&mut text, memory)?;
    }
    for state in chart.states.as_slice() {
        describe_state(&mut text, state)?;
    }
    for transition in chart.transitions.as_slice() {
        describe_transition(&mut text, transition)?;
        writeln!(text)?;
    }
    Ok(text)
}

fn describe_refusal(alloc: Global, error: &ChartError) -> Result<String, AllocError> {
    match error {
        ChartError::Fault { line, kind } => format!(in alloc; "{line} {kind:?}"),
        ChartError::Limit { line, which } => format!(in alloc; "{line} limit {which:?}"),
        ChartError::Memory => String::from_str(alloc, "memory"),
    }
}

/// All that a text reads as, or its refusal.
pub fn chart_reading(alloc: Global, text: &str) -> Result<String, AllocError> {
    match read_chart(alloc, text.as_bytes()) {
        Ok(chart) => describe_chart(alloc, &chart),
        Err(error) => describe_refusal(alloc, &error),
    }
}

/// That a text is a chart, or its refusal.
pub fn chart_answer(alloc: Global, text: &str) -> Result<String, AllocError> {
    match read_chart(alloc, text.as_bytes()) {
        Ok(_) => String::from_str(alloc, "chart"),
        Err(error) => describe_refusal(alloc, &error),
    }
}

/// The transitions of a chart one behind the other, or its refusal.
pub fn transitions_of(alloc: Global, text: &str) -> Result<String, AllocError> {
    match read_chart(alloc, text.as_bytes()) {
        Ok(chart) => {
            let mut text = String::new(alloc);
            for transition in chart.transitions.as_slice() {
                describe_transition(&mut text, transition)?;
            }
            Ok(text)
        }
        Err(error) => describe_refusal(alloc, &error),
    }
}

/// The vectors of a word, or its refusal.
pub fn word_reading(alloc: Global, text: &str, chart: &Chart) -> Result<String, AllocError> {
    match read_word(alloc, text.as_bytes(), chart) {
        Ok(vectors) => {
            let mut text = String::new(alloc);
            if vectors.is_empty() {
                write!(text, "empty")?;
            }
            for vector in vectors.as_slice() {
                write!(text, "{:?}", vector.as_slice())?;
            }
            Ok(text)
        }
        Err(error) => describe_refusal(alloc, &error),
    }
}

/// The tokens of a line with their places, or its refusal.
pub fn token_reading(alloc: Global, line: &str) -> Result<String, AllocError> {
    match tokens(alloc, line.as_bytes()) {
        Ok(tokens) => {
            let mut text = String::new(alloc);
            if tokens.is_empty() {
                write!(text, "empty")?;
            }
            for token in tokens.as_slice() {
                let comma = if text.is_empty() { "" } else { ", " };
                write!(text, "{comma}{:?} {}-{}", token.word, token.from, token.to)?;
            }
            Ok(text)
        }
        Err(error) => describe_refusal(alloc, &error),
    }
}

/// The chart that a text is.
pub fn chart_of(alloc: Global, text: &str) -> Result<Chart, AllocError> {
    match read_chart(alloc, text.as_bytes()) {
        Ok(chart) => Ok(chart),
        Err(_) => Err(AllocError),
    }
}

fn describe_cuts(alloc: Global, cuts: &Cuts) -> Result<String, AllocError> {
    let mut text = String::new(alloc);
    for (number, cut) in cuts.as_slice().iter().enumerate() {
        if number > 0 {
            text.push_str("; ")?;
        }
        let inputs = cut.form.inputs.as_slice();
        write!(text, "{:?} {inputs:?} {}", cut.relation, cut.form.constant)?;
    }
    if text.is_empty() {
        text.push_str("empty")?;
    }
    Ok(text)
}

/// The cuts over the inputs of a chart, or the refusal.
pub fn cuts_reading(alloc: Global, text: &str, chart: &Chart) -> Result<String, AllocError> {
    match read_cuts(alloc, text.as_bytes(), &chart.signature) {
        Ok(cuts) => describe_cuts(alloc, &cuts),
        Err(error) => describe_refusal(alloc, &error),
    }
}

fn describe_table(alloc: Global, table: &Table) -> Result<String, AllocError> {
    let mut text = String::new(alloc);
    let inputs = table.signature.inputs.as_slice().len();
    let outputs = table.signature.outputs.as_slice().len();
    let states = table.states.len();
    write!(text, "{inputs} {outputs} {states} {}", table.rows.len())?;
    for state in table.states.as_slice() {
        write!(text, " {:?}", state.reply.as_slice())?;
    }
    Ok(text)
}

/// A table by its numbers of inputs, outputs, states and rows, and by the replies of its states, or the refusal.
pub fn table_reading(alloc: Global, text: &str) -> Result<String, AllocError> {
    match read_table(alloc, text.as_bytes()) {
        Ok(table) => describe_table(alloc, &table),
        Err(error) => describe_refusal(alloc, &error),
    }
}

/// The guard from a token of a line on, and the number of the token after it, or its refusal.
pub fn guard_reading(
    alloc: Global,
    line: &str,
    signature: &Signature,
    at: usize,
) -> Result<String, AllocError> {
    let Ok(tokens) = tokens(alloc, line.as_bytes()) else {
        return Err(AllocError);
    };
    match guard_at(alloc, line.as_bytes(), tokens.as_slice(), at, signature) {
        Ok((guard, end)) => {
            if guard_end(line.as_bytes(), tokens.as_slice(), at) != Some(end) {
                return Err(AllocError);
            }
            let mut text = String::new(alloc);
            describe_guard(&mut text, &guard)?;
            write!(text, " to {end}")?;
            Ok(text)
        }
        Err(error) => describe_refusal(alloc, &error),
    }
}
