ghost use Rattle.std.specs.Prelude.{◌≡◌};
ghost use Rattle.run_stages.specs.Implementations.{signature_of};

use chart_model::Chart;
use impl_table::Table;
use lin_form::Signature;

/// A deterministic implementation.
#[derive(Drop)]
pub enum Implementation {
    /// A state chart.
    Chart(Chart),
    /// A table.
    Table(Table),
}

impl Implementation {
    /// Its inputs and outputs. It takes no memory.
    pub fn signature(&self) -> &Signature
        ensures { result.now ≡ signature_of self.now }
    {
        match self {
            Implementation::Chart(chart) => &chart.signature,
            Implementation::Table(table) => &table.signature,
        }
    }
}
