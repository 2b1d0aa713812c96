//! Implementations as tables: what a text reads as, the plan of a table, and whether a signature fits that of a model.
#![tactic(auto)]

mod check;
mod fit;
mod form;
mod laws;
mod plan;
mod read;
mod reader;
mod reply;
mod table;
mod table_rows;
mod take;

pub use fit::{Unfit, fits};
pub use laws::table_or_refusal;
pub use read::read_table;
pub use table::{Row, Table, TableState};
pub use table_rows::TableRows;
