ghost use Rattle.std.specs.Prelude.{◌≡◌};
ghost use Rattle.chart_syntax.specs.Checks.{start};

use crate::table::{NameTable, Named};
use chart_model::{Action, Transition};
use lin_form::{Comparison, Name};
use line_forms::{InputForm, MemoryForm, OutputForm};
use sqlite_items::Items;
use std::alloc::Global;

/// A declared state.
#[derive(Clone, Copy)]
pub struct DeclaredState {
    pub name: Name,
    /// The number of the state that contains it.
    pub parent: Option<usize>,
    pub start: bool,
    /// How many states are on the way from the top to it, both counted.
    pub depth: usize,
}

impl Named for DeclaredState {
    ghost name_of = { λ state. state.name };

    fn name(&self) -> Name {
        self.name
    }
}

/// What the lines read so far declare.
#[derive(Drop)]
pub struct Reader {
    /// The version that the first line states, 0 before it.
    pub version: u32,
    /// The group of the last line: 1 for inputs, 2 for assumptions, 3 for outputs, 4 for memories, 5 for states and
    /// 6 for
    /// what states do; 0 before all of them.
    pub group: u8,
    pub inputs: NameTable<InputForm>,
    pub assumed: Items<Comparison>,
    pub outputs: NameTable<OutputForm>,
    pub memories: NameTable<MemoryForm>,
    /// The product of the sizes of the memories' ranges.
    pub product: u64,
    pub states: NameTable<DeclaredState>,
    /// For each state the actions of its entry line, once that is read.
    pub entries: Items<Option<Items<Action>>>,
    /// For each state the actions of its exit line, once that is read.
    pub exits: Items<Option<Items<Action>>>,
    pub transitions: Items<Transition>,
}

/// A reader that has read nothing.
pub fn begin(alloc: Global) -> Reader
    ensures { result ≡ start }
{
    Reader {
        version: 0,
        group: 0,
        inputs: NameTable::new(alloc),
        assumed: Items::new(alloc),
        outputs: NameTable::new(alloc),
        memories: NameTable::new(alloc),
        product: 1,
        states: NameTable::new(alloc),
        entries: Items::new(alloc),
        exits: Items::new(alloc),
        transitions: Items::new(alloc),
    }
}
