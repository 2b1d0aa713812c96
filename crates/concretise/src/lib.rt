//! The suite of a plan: the words of the W-method over the witnesses of classes, with the plan's replies.
#![tactic(auto)]

mod answering;
mod copying;

pub use answering::concrete;
