ghost use Rattle.impl_table.specs.Table.{IsTable};

use crate::table_rows::TableRows;
use chart_model::Condition;
use lin_form::{Name, Reply, Signature};
use sqlite_items::Items;

/// A state, and its reply where no row fires.
#[derive(Clone, Copy, Debug)]
pub struct TableState {
    pub name: Name,
    pub reply: Reply,
}

/// A row of a state: where its guard holds, it gives the reply and the next state. States are named by their numbers.
#[derive(Drop)]
pub struct Row {
    pub from: usize,
    /// Without a guard it always holds.
    pub guard: Option<Condition>,
    pub reply: Reply,
    pub to: usize,
}

/// A deterministic implementation as a table. The first state is the start. Rows stand in written order.
#[derive(Drop)]
pub struct Table {
    pub signature: Signature,
    pub states: Items<TableState>,
    pub rows: TableRows,
    pub ghost kept: { IsTable signature states rows },
}
