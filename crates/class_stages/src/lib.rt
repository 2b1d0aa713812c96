//! The stages of the commands that divide a chart's inputs into classes: its cuts, its atoms and its classes, and their
//! text.
#![tactic(auto)]

mod classes;
mod cuts;
mod printing;

pub use classes::classes_over;
pub use cuts::cuts_at;
pub use printing::ClassLines;
