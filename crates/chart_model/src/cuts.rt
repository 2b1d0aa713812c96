ghost use Rattle.std.specs.Prelude.{◌≡◌, []};
ghost use Rattle.chart_model.specs.Cuts.{AreCuts};

use lin_form::Comparison;
use std::alloc::Global;
use std::marker::Model;

/// Further comparisons of the inputs alone, along which input classes are cut.
#[derive(Drop)]
pub struct Cuts {
    list: Vec<Comparison>,
}

impl Model for Cuts {
    ghost use Rattle.std.specs.Prelude.{List};
    ghost use Rattle.lin_form.specs.declared.form.Comparison.{Comparison};
    ghost use Rattle.chart_model.specs.Cuts.{AreCuts};

    ghost Value = { List Comparison };

    ghost view = { λ cuts. cuts.list.items };

    ghost invariant = { λ cuts. AreCuts cuts.list.items };
}

impl Cuts {
    /// No cuts. It takes no memory.
    pub fn none(alloc: Global) -> Cuts
        ensures { result ≡ [] }
    {
        Cuts {
            list: Vec::new(alloc),
        }
    }

    /// The cuts of this list. It takes no memory.
    pub fn from_vec(list: Vec<Comparison>) -> Cuts
        requires { AreCuts list.items }
        ensures { result ≡ list.items }
    {
        Cuts { list }
    }

    /// The cuts in order.
    pub fn as_slice(&self) -> &[Comparison]
        ensures value { result.now ≡ self.now }
        ensures cuts { AreCuts self.now }
    {
        self.list.as_slice()
    }
}
