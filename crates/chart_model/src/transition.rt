use crate::action::Action;
use crate::guard::Condition;
use sqlite_items::Items;

/// A transition from a state, taken from it and from all states inside it. States are named by their numbers.
#[derive(Drop)]
pub struct Transition {
    pub source: usize,
    /// Without a guard it is always enabled.
    pub guard: Option<Condition>,
    pub effect: Items<Action>,
    /// Without a target only the effect is done.
    pub target: Option<usize>,
    /// Whether the target's last child is entered in place of its start child.
    pub history: bool,
}
