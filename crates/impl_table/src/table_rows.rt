ghost use Rattle.std.specs.Prelude.{◌≡◌, ◌<◌, ◌≤◌, length, All, IfOk, option_map, replicate};
ghost use Rattle.std.specs.Option.{ForSome};
ghost use Rattle.lin_form.specs.Range.{AreWithin};
ghost use Rattle.chart_model.specs.Guard.{IsReadableGuard};
ghost use Rattle.impl_table.specs.Firing.{holds, first_row};
ghost use Rattle.impl_table.specs.inside.Chains.{AreChainedFrom};
ghost use Rattle.impl_table.specs.inside.Lines.{IsReadableRow};

use crate::table::Row;
use chart_model::Condition;
use lin_form::Vector;
use sqlite_items::Items;
use std::alloc::{AllocError, Global};
use std::marker::Model;

/// TableRows in written order. Beside them stand, for each state, its first row, and for each row, the next row of the same
/// state, so that a step looks at the rows of its state alone.
#[derive(Drop)]
pub struct TableRows {
    rows: Items<Row>,
    /// The number of a state's first row, or the number of rows where it has none.
    firsts: Vec<u16>,
    /// The number of the next row of the same state, or the number of rows where there is none.
    nexts: Vec<u16>,
}

impl Model for TableRows {
    ghost use Rattle.std.specs.Prelude.{List};
    ghost use Rattle.std.specs.Coded.{coded_list};
    ghost use Rattle.impl_table.specs.contracts.table.Row as stored;
    ghost use Rattle.impl_table.specs.declared.table.Row.{Row};
    ghost use Rattle.impl_table.specs.inside.Chains.{AreChained};

    ghost Value = { List Row };

    ghost coded = { coded_list stored.the_row.coded };

    ghost view = { λ r. r.rows };

    ghost invariant = { λ r. AreChained r.rows r.firsts.items r.nexts.items };
}

impl TableRows {
    /// The rows of so many states.
    pub(crate) fn new(
        alloc: Global,
        rows: Items<Row>,
        states: usize,
    ) -> Result<TableRows, AllocError>
        requires few { length rows ≤ 4096 }
        requires from { All (λ row. row.from < states) rows }
        ensures { IfOk result (λ kept. kept ≡ rows) }
    {
        let end = rows.len() as u16;
        let mut firsts = vec![in alloc; end; states]?;
        let mut nexts = vec![in alloc; end; rows.len()]?;
        chain(rows.as_slice(), firsts.as_mut_slice(), nexts.as_mut_slice());
        Ok(TableRows {
            rows,
            firsts,
            nexts,
        })
    }

    /// The rows in written order.
    pub fn as_slice(&self) -> &[Row]
        ensures { result.now ≡ self.now }
    {
        self.rows.as_slice()
    }

    /// How many rows there are.
    pub fn len(&self) -> usize
        ensures { result ≡ length self.now }
    {
        self.rows.len()
    }

    /// The first row of a state whose guard holds.
    pub(crate) fn first_enabled(&self, state: usize, vector: &Vector) -> Option<&Row>
        requires readable { All (IsReadableRow (length vector.now)) self.now }
        requires numbers { AreWithin 1000000 vector.now }
        ensures { option_map (λ row. row.now) result ≡ first_row self.now state vector.now }
    {
        let rows = self.rows.as_slice();
        let Some(first) = self.firsts.get(state) else {
            return None;
        };
        let mut at = *first as usize;
        'rows: while at < rows.len() {
            let row = &rows[at];
            if holds(&row.guard, vector) {
                return Some(row);
            }
            at = self.nexts[at] as usize;
        }
        None
    }
}

/// Puts each state's first row and each row's next into the two lists, which have the number of rows at each place.
fn chain(rows: &[Row], firsts: &mut [u16], nexts: &mut [u16])
    requires few { length rows.now ≤ 4096 }
    requires from { All (λ row. row.from < length firsts.old) rows.now }
    requires firsts { firsts.old ≡ replicate (length firsts.old) (length rows.now) }
    requires nexts { length nexts.old ≡ length rows.now }
    ensures chained { AreChainedFrom rows.now 0 firsts.new nexts.new }
    ensures states { length firsts.new ≡ length firsts.old }
{
    let mut at = rows.len();
    'rows: while at > 0 {
        at -= 1;
        let state = rows[at].from;
        nexts[at] = firsts[state];
        firsts[state] = at as u16;
    }
}

/// Whether a row's guard holds.
fn holds(guard: &Option<Condition>, vector: &Vector) -> bool
    requires readable { ForSome guard.now (IsReadableGuard (length vector.now)) }
    requires numbers { AreWithin 1000000 vector.now }
    ensures { result ≡ holds guard.now vector.now }
{
    match guard {
        Some(guard) => guard.is_true_within(vector, &[0; 4]),
        None => true,
    }
}
