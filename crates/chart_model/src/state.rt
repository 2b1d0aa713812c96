use crate::action::Action;
use lin_form::Name;
use sqlite_items::Items;

/// A number that a chart keeps, within its range from `lo` to `hi`.
#[derive(Clone, Copy, PartialEq, Eq, Debug)]
pub struct Memory {
    pub name: Name,
    pub lo: i64,
    pub hi: i64,
    pub initial: i64,
}

/// A state, the number of the state that contains it, and what is done on the way in and out.
#[derive(Drop)]
pub struct State {
    pub name: Name,
    /// A smaller number than the state's own; None at the top.
    pub parent: Option<usize>,
    /// Whether it is entered where its parent is, or the chart starts there.
    pub start: bool,
    pub entry: Items<Action>,
    pub exit: Items<Action>,
}
