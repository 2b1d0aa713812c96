ghost use Rattle.std.specs.Prelude.{◌≡◌, ◌<◌, Some, None, Contains, length, slice_get};
ghost use Rattle.std.specs.Option.{ForSome};
ghost use Rattle.chart_meaning.specs.Actions.{run};
ghost use Rattle.chart_meaning.specs.Step.{enter, enter_all, exit_all, exit_of, go_to, remember, take_transition, way_below};
ghost use Rattle.chart_meaning.specs.Tree.{start_descendants};
ghost use Rattle.chart_meaning.specs.IsConfiguration.{AreLastChildren, AreValues, IsConfiguration};
ghost use Rattle.chart_meaning.specs.Rows.{AreWaysDown, IsRouteTo, IsRow};
ghost use Rattle.chart_meaning.specs.Ways.{AreStates, IsActiveIn, IsUpFrom};

use crate::actions::run;
use crate::config::Config;
use crate::path::Path;
use crate::rows::{Route, Row};
use chart_model::{Chart, Transition};

/// Enters states, outermost first.
pub fn enter_all(chart: &Chart, way: &[u8], config: &mut Config)
    requires way { AreStates chart.now.states way.now }
    requires values { AreValues chart.now config.old }
    ensures enter { config.new ≡ enter_all chart.now way.now config.old }
    ensures values { AreValues chart.now config.new }
{
    for state in way {
        enter(chart, *state, config);
    }
}

/// Enters a state, which is then the one reached.
pub fn enter(chart: &Chart, state: u8, config: &mut Config)
    requires state { state < length chart.now.states }
    requires values { AreValues chart.now config.old }
    ensures enter { config.new ≡ enter chart.now state config.old }
    ensures values { AreValues chart.now config.new }
{
    let state = state as usize;
    run(
        chart,
        chart.states.as_slice()[state].entry.as_slice(),
        config,
    );
    config.set_leaf(state);
}

/// Exits states from the inside out, of which the first is the leaf.
pub fn exit_all(chart: &Chart, way: &[u8], config: &mut Config)
    requires way { IsUpFrom chart.now.states (Some config.old.leaf) way.now }
    requires states { AreStates chart.now.states way.now }
    requires configuration { IsConfiguration chart.now config.old }
    ensures exit { config.new ≡ exit_all chart.now None way.now config.old }
    ensures values { AreValues chart.now config.new }
    ensures last { AreLastChildren chart.now config.new }
{
    let mut child = None;
    for state in way {
        exit(chart, *state, child, config);
        child = Some(*state);
    }
}

/// Exits a state in which the child was active.
fn exit(chart: &Chart, state: u8, child: Option<u8>, config: &mut Config)
    requires state { state < length chart.now.states }
    requires child { IsActiveIn chart.now state child }
    requires values { AreValues chart.now config.old }
    requires last { AreLastChildren chart.now config.old }
    ensures exit { config.new ≡ remember chart.now.transitions state child (run chart.now.memories (exit_of chart.now.states state) config.old) }
    ensures values { AreValues chart.now config.new }
    ensures last { AreLastChildren chart.now config.new }
{
    let number = state as usize;
    run(
        chart,
        chart.states.as_slice()[number].exit.as_slice(),
        config,
    );
    remember(chart, number, child, config);
}

/// Notes the last child of a remembering state.
fn remember(chart: &Chart, state: usize, child: Option<u8>, config: &mut Config)
    requires state { state < length chart.now.states }
    requires child { IsActiveIn chart.now state child }
    requires values { AreValues chart.now config.old }
    requires last { AreLastChildren chart.now config.old }
    ensures last_child { config.new ≡ remember chart.now.transitions state child config.old }
    ensures values { AreValues chart.now config.new }
    ensures last { AreLastChildren chart.now config.new }
{
    if let Some(child) = child {
        if config.last_child(state).is_some() {
            config.set_last_child(state, child as usize);
        }
    }
}

/// Does what a row's transition does.
#[inline(never)]
pub fn take_row(chart: &Chart, ways: &[Path], row: &Row, config: &mut Config)
    requires ways { AreWaysDown chart.now.states ways.now }
    requires row { IsRow chart.now config.old.leaf row.now }
    requires configuration { IsConfiguration chart.now config.old }
    ensures taken { ForSome (slice_get chart.now.transitions row.now.transition) (λ transition. config.new ≡ take_transition chart.now transition config.old) }
    ensures configuration { IsConfiguration chart.now config.new }
{
    let transition = &chart.transitions.as_slice()[row.transition as usize];
    match &row.route {
        Some(route) => go_to(chart, ways, transition, route, config),
        None => run(chart, transition.effect.as_slice(), config),
    }
}

/// Exits, runs the effect, and enters the target.
fn go_to(chart: &Chart, ways: &[Path], transition: &Transition, route: &Route, config: &mut Config)
    requires transition { Contains chart.now.transitions transition.now }
    requires route { IsRouteTo chart.now config.old.leaf transition.now route.now }
    requires ways { AreWaysDown chart.now.states ways.now }
    requires configuration { IsConfiguration chart.now config.old }
    ensures taken { config.new ≡ go_to chart.now transition.now route.now.target config.old }
    ensures configuration { IsConfiguration chart.now config.new }
{
    let exited = route.exited.as_slice();
    let effect = transition.effect.as_slice();
    let entered = route.entered.as_slice();
    exit_all(chart, exited, config);
    run(chart, effect, config);
    enter_all(chart, entered, config);
    let target = route.target as usize;
    enter_below(chart, ways, target, transition.history, config);
}

/// Enters the states below a target that is entered.
fn enter_below(chart: &Chart, ways: &[Path], target: usize, history: bool, config: &mut Config)
    requires ways { AreWaysDown chart.now.states ways.now }
    requires target { target < length chart.now.states }
    requires values { AreValues chart.now config.old }
    requires last { AreLastChildren chart.now config.old }
    ensures below { config.new ≡ enter_all chart.now (way_below chart.now.states history target config.old) config.old }
    ensures values { AreValues chart.now config.new }
{
    if !history {
        enter_down(chart, ways, target, config);
    } else if let Some(child) = config.last_child(target) {
        enter(chart, child as u8, config);
        enter_down(chart, ways, child, config);
    }
}

/// Enters the start children below a state.
pub fn enter_down(chart: &Chart, ways: &[Path], state: usize, config: &mut Config)
    requires ways { AreWaysDown chart.now.states ways.now }
    requires state { state < length chart.now.states }
    requires values { AreValues chart.now config.old }
    ensures down { config.new ≡ enter_all chart.now (start_descendants chart.now.states state) config.old }
    ensures values { AreValues chart.now config.new }
{
    let way = &ways[state];
    enter_all(chart, way.as_slice(), config);
}
