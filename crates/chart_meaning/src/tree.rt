ghost use Rattle.std.specs.Prelude.{◌≡◌, ◌<◌, ◌≤◌, ◌==◌, length, not, find, take_while};
ghost use Rattle.std.specs.List.{list_any};
ghost use Rattle.chart_model.specs.States.{IsTree, is_child_of};
ghost use Rattle.chart_meaning.specs.Tree.{ancestors, start_descendants, least_common_proper_ancestor, states_below, start_child};

use crate::path::Path;
use chart_model::State;

/// A state and all states that contain it, from the inside out.
pub fn ancestors(states: &[State], state: usize) -> Path
    requires tree { IsTree states.now }
    requires few { length states.now ≤ 64 }
    requires inside { state < length states.now }
    ensures way { result ≡ ancestors states.now state }
    ensures some { 0 < length result }
{
    let mut way = Path::new();
    let mut at = Some(state);
    while let Some(inner) = at {
        way.push(inner as u8);
        at = states[inner].parent;
    }
    way
}

/// The innermost state that properly contains both, if there is one.
pub fn least_common_proper_ancestor(states: &[State], source: usize, target: usize) -> Option<u8>
    requires tree { IsTree states.now }
    requires few { length states.now ≤ 64 }
    requires source { source < length states.now }
    requires target { target < length states.now }
    ensures { result ≡ least_common_proper_ancestor states.now source target }
{
    let source_way = ancestors(states, source);
    let target_way = ancestors(states, target);
    first_common(&source_way.as_slice()[1..], &target_way.as_slice()[1..])
}

/// The first of these states that is also one of the others.
fn first_common(states: &[u8], others: &[u8]) -> Option<u8>
    ensures { result ≡ find (λ s. list_any (λ t. t == s) others.now) states.now }
{
    for state in states {
        if others.contains(state) {
            return Some(*state);
        }
    }
    None
}

/// The ancestors in a list that lie below a state, or all of them.
pub fn states_below(container: Option<u8>, way: Path) -> Path
    ensures { result ≡ states_below container way }
{
    match container {
        Some(container) => before(container, &way),
        None => way,
    }
}

/// The states that stand before one.
fn before(container: u8, way: &Path) -> Path
    ensures { result ≡ take_while (λ s. not (s == container)) way.now }
{
    let mut below = Path::new();
    for state in way.as_slice() {
        if *state == container {
            return below;
        }
        below.push(*state);
    }
    below
}

/// The child that is entered where the state is.
pub fn start_child(states: &[State], state: usize) -> Option<usize>
    ensures { result ≡ start_child states.now state }
{
    states
        .iter()
        .position(|child| child.start && is_child_of(state, child))
}

/// Whether the child stands in the state.
pub fn is_child_of(state: usize, child: &State) -> bool
    ensures { result ≡ is_child_of state child.now }
{
    match child.parent {
        Some(parent) => parent == state,
        None => false,
    }
}

/// The start children that are entered below a state, outermost first.
pub fn start_descendants(states: &[State], state: usize) -> Path
    requires tree { IsTree states.now }
    requires few { length states.now ≤ 64 }
    requires inside { state < length states.now }
    ensures { result ≡ start_descendants states.now state }
{
    let mut way = Path::new();
    let mut at = start_child(states, state);
    while let Some(child) = at {
        way.push(child as u8);
        at = start_child(states, child);
    }
    way
}
