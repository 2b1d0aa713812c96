ghost use Rattle.std.specs.Prelude.{◌≡◌, ◌<◌, ◌++◌, ◌==◌, IfOk, OnOk, List, [], filter, length, slice_get};
ghost use Rattle.std.specs.List.{AllZip};
ghost use Rattle.std.specs.Option.{ForSome};
ghost use Rattle.chart_model.specs.declared.transition.Transition.{Transition};
ghost use Rattle.chart_model.specs.States.{has_children};
ghost use Rattle.chart_meaning.specs.Step.{entered_by, exited_by};
ghost use Rattle.chart_meaning.specs.Rows.{AreRows, AreRowsOfLeaves, AreWaysDown, IsRowOf};

use crate::path::Path;
use crate::tree::{
    ancestors, is_child_of, least_common_proper_ancestor, start_descendants, states_below,
};
use chart_model::{Chart, State, Transition};
use std::alloc::{AllocError, Global};

/// The exits and entries between a leaf and a transition's target.
#[derive(Drop)]
pub struct Route {
    pub target: u8,
    /// The active states that are exited, from the inside out.
    pub exited: Path,
    /// The states that are entered down to the target, outermost first.
    pub entered: Path,
}

/// A transition that may fire in a leaf.
#[derive(Drop)]
pub struct Row {
    /// Its number in written order.
    pub transition: u16,
    /// Where it has no target it has no route.
    pub route: Option<Route>,
}

/// The ways down from all states, in order.
pub fn ways_down(alloc: Global, chart: &Chart) -> Result<Vec<Path>, AllocError>
    ensures { IfOk result (λ ways. AreWaysDown chart.now.states ways.items) }
{
    let states = chart.states.as_slice();
    let mut ways = Vec::with_capacity(alloc, states.len())?;
    for state in 0..states.len() {
        ways.push(start_descendants(states, state))?;
    }
    Ok(ways)
}

/// The rows of all leaves. A state with children has none.
pub fn rows_of_leaves(alloc: Global, chart: &Chart) -> Result<Vec<Vec<Row>>, AllocError>
    ensures { IfOk result (λ rows. AreRowsOfLeaves chart.now rows.items) }
{
    let states = chart.states.as_slice();
    let mut all = Vec::with_capacity(alloc, states.len())?;
    for state in 0..states.len() {
        let mut rows = Vec::new(alloc);
        if !has_children(states, state) {
            collect_rows(chart, state, &mut rows)?;
        }
        all.push(rows)?;
    }
    Ok(all)
}

/// Whether some state stands in this one.
pub fn has_children(states: &[State], state: usize) -> bool
    ensures { result ≡ has_children states.now state }
{
    states.iter().any(|child| is_child_of(state, child))
}

/// Adds the rows of a leaf: its active states' from the inside out.
fn collect_rows(chart: &Chart, leaf: usize, rows: &mut Vec<Row>) -> Result<(), AllocError>
    requires leaf { leaf < length chart.now.states }
    requires empty { rows.old.items ≡ [] }
    ensures { OnOk result (AreRows chart.now leaf rows.new.items) }
{
    let active = ancestors(chart.states.as_slice(), leaf);
    for state in active.as_slice() {
        add_rows_from(chart, leaf, *state as usize, rows)?;
    }
    Ok(())
}

/// Adds the rows of a state's transitions in written order.
fn add_rows_from(
    chart: &Chart,
    leaf: usize,
    state: usize,
    rows: &mut Vec<Row>,
) -> Result<(), AllocError>
    requires leaf { leaf < length chart.now.states }
    ensures { OnOk result ((seen : List Transition) → AllZip (IsRowOf chart.now leaf) seen rows.old.items
        → AllZip (IsRowOf chart.now leaf)
        (seen ++ filter (λ transition. transition.source == state) chart.now.transitions) rows.new.items) }
{
    for (number, transition) in chart.transitions.as_slice().iter().enumerate() {
        if transition.source == state {
            rows.push(row_of(chart, leaf, number))?;
        }
    }
    Ok(())
}

/// The row of a transition in a leaf.
fn row_of(chart: &Chart, leaf: usize, transition: usize) -> Row
    requires leaf { leaf < length chart.now.states }
    requires transition { transition < length chart.now.transitions }
    ensures { ForSome (slice_get chart.now.transitions transition) (λ t. IsRowOf chart.now leaf t result) }
{
    let written = &chart.transitions.as_slice()[transition];
    let route = match written.target {
        Some(target) => Some(route_to(chart, written.source, target, leaf)),
        None => None,
    };
    Row {
        transition: transition as u16,
        route,
    }
}

/// The route of a transition from source to target where the leaf is active.
fn route_to(chart: &Chart, source: usize, target: usize, leaf: usize) -> Route
    requires source { source < length chart.now.states }
    requires target { target < length chart.now.states }
    requires leaf { leaf < length chart.now.states }
    ensures target { result.target ≡ target }
    ensures exited { result.exited ≡ exited_by chart.now.states source target leaf }
    ensures entered { result.entered ≡ entered_by chart.now.states source target }
{
    let states = chart.states.as_slice();
    let container = least_common_proper_ancestor(states, source, target);
    let exited = states_below(container, ancestors(states, leaf));
    let mut entered = states_below(container, ancestors(states, target));
    entered.reverse();
    Route {
        target: target as u8,
        exited,
        entered,
    }
}
