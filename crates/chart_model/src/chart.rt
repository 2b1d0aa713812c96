ghost use Rattle.chart_model.specs.Chart.{IsChart};

use crate::state::{Memory, State};
use crate::transition::Transition;
use lin_form::{Comparison, Reply, Signature};
use sqlite_items::Items;

/// A deterministic state chart. Transitions stand in written order.
#[derive(Drop)]
pub struct Chart {
    pub signature: Signature,
    /// The outputs' declared values.
    pub initial: Reply,
    /// What is assumed of every input vector.
    pub assumed: Items<Comparison>,
    pub memories: Items<Memory>,
    pub states: Items<State>,
    pub transitions: Items<Transition>,
    pub ghost kept: { IsChart signature initial assumed memories states transitions },
}
