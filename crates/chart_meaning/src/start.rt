ghost use Rattle.std.specs.Prelude.{◌≡◌, ◌<◌, IfSome, Some, None, length, map, position, replicate, slice_get, slice_set, pos};
ghost use Rattle.std.specs.List.{All, range_with_len};
ghost use Rattle.chart_model.specs.Chart.{IsMemory};
ghost use Rattle.chart_model.specs.States.{is_top_start};
ghost use Rattle.chart_meaning.specs.Step.{declared, first_last, is_recall_of, is_remembering, start_of};
ghost use Rattle.chart_meaning.specs.Rows.{AreWaysDown};
ghost use Rattle.chart_meaning.specs.IsConfiguration.{AreLastChildren, AreValues, IsConfiguration};

use crate::config::Config;
use crate::moves::{enter, enter_down};
use crate::path::Path;
use crate::tree::start_child;
use chart_model::{Chart, Memory, State, Transition};

/// The starting configuration of a chart.
pub fn start(chart: &Chart, ways: &[Path]) -> Config
    requires { AreWaysDown chart.now.states ways.now }
    ensures start { result ≡ start_of chart.now }
    ensures configuration { IsConfiguration chart.now result }
{
    let top = top_start(chart);
    let mut config = declared(chart, top);
    enter(chart, top as u8, &mut config);
    enter_down(chart, ways, top, &mut config);
    config
}

/// The state in which a chart starts.
fn top_start(chart: &Chart) -> usize
    ensures top { position is_top_start chart.now.states ≡ Some result }
    ensures inside { result < length chart.now.states }
{
    match first_top_start(chart.states.as_slice()) {
        Some(top) => top,
        None => unreachable!(),
    }
}

/// The first state that is a start and has no parent.
fn first_top_start(states: &[State]) -> Option<usize>
    ensures { result ≡ position is_top_start states.now }
{
    states.iter().position(|state| is_top_start(state))
}

/// Whether a chart starts in the state.
pub fn is_top_start(state: &State) -> bool
    ensures { result ≡ is_top_start state.now }
{
    state.start && state.parent.is_none()
}

/// The declared values, and start children as last children, before the state is entered.
fn declared(chart: &Chart, state: usize) -> Config
    requires { state < length chart.now.states }
    ensures declared { result ≡ declared chart.now state }
    ensures values { AreValues chart.now result }
    ensures last { AreLastChildren chart.now result }
{
    let memories = chart.memories.as_slice();
    let mut config = Config::new(memories.len(), chart.initial.as_slice(), chart.states.len());
    config.set_leaf(state);
    set_initial(memories, &mut config);
    set_first_last(chart, &mut config);
    config
}

/// Sets each memory to its declared value.
fn set_initial(memories: &[Memory], config: &mut Config)
    requires ranges { All IsMemory memories.now }
    requires zeros { config.old.memory ≡ replicate (length memories.now) (pos 0) }
    ensures { config.new ≡ record config.old { memory = map (λ memory. memory.initial) memories.now } }
{
    for (number, memory) in memories.iter().enumerate() {
        config.set_memory(number, memory.initial);
    }
}

/// Sets the last child of each remembering state to its start child.
fn set_first_last(chart: &Chart, config: &mut Config)
    requires { config.old.last ≡ replicate (length chart.now.states) None }
    ensures { config.new ≡ record config.old { last = map (first_last chart.now) (range_with_len 0 (length chart.now.states)) } }
{
    for state in 0..chart.states.len() {
        set_first_last_of(chart, state, config);
    }
}

/// Sets the last child of a state, if it remembers one.
fn set_first_last_of(chart: &Chart, state: usize, config: &mut Config)
    requires state { state < length chart.now.states }
    requires none { slice_get config.old.last state ≡ Some None }
    ensures { config.new ≡ record config.old { last = slice_set config.old.last state (first_last chart.now state) } }
{
    if let Some(child) = first_last(chart, state) {
        config.set_last_child(state, child);
    }
}

/// The last child of a state at the start.
fn first_last(chart: &Chart, state: usize) -> Option<usize>
    ensures value { result ≡ first_last chart.now state }
    ensures inside { IfSome result (λ child. child < length chart.now.states) }
{
    if is_remembering(chart.transitions.as_slice(), state) {
        start_child(chart.states.as_slice(), state)
    } else {
        None
    }
}

/// Whether a state is the target of some transition with history.
fn is_remembering(transitions: &[Transition], state: usize) -> bool
    ensures { result ≡ is_remembering transitions.now state }
{
    transitions
        .iter()
        .any(|transition| is_recall_of(state, transition))
}

/// Whether a transition is to the state, and has history.
fn is_recall_of(state: usize, transition: &Transition) -> bool
    ensures { result ≡ is_recall_of state transition.now }
{
    match transition.target {
        Some(target) => transition.history && target == state,
        None => false,
    }
}
