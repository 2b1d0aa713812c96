//! What the text of a command shows of the chart that it names and of the implementation that it is about: a law, and no
//! code.
#![tactic(auto)]

mod laws;

pub use laws::texts_show;
