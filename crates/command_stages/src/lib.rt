//! What the commands have in common: the stages that one goes through, why it stops, what is put at its end, and the line
//! on `err`.
#![tactic(auto)]

mod ending;
mod line;
mod print;
mod reporting;
mod stop;
#[cfg(test)]
mod tests;
mod text;
mod texts;

pub use ending::finish;
pub use line::Line;
pub use print::Print;
pub use reporting::report;
pub use stop::{Departure, Quantity, Refusal, SignaturePlace, Source, Stop};
pub use text::{refused, text_at, word_at};
pub use texts::{Word, chart_at, word_over};
