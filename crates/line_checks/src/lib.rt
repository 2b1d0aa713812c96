//! What the readers of every format do with a line: names in scope, and sums, comparisons and guards over them.
#![tactic(auto)]

mod guard;
mod laws;
mod lookup;
mod run;
mod scope;
mod sum;
#[cfg(test)]
mod tests;
mod walk;
mod written;

pub use guard::{Unresolved, comparisons_left, resolved};
pub use laws::{guards_fit, sums_add_up};
pub use run::{GuardError, guard_at, guard_end};
pub use scope::{InputScope, NameFault, Scope, Variable};
pub use sum::{comparison, value_form};
