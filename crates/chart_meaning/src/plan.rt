ghost use Rattle.std.specs.Prelude.{◌≡◌, IfOk};
ghost use Rattle.lin_form.specs.Signature.{IsInInputRanges};
ghost use Rattle.chart_meaning.specs.IsConfiguration.{IsConfiguration};
ghost use Rattle.chart_meaning.specs.Plan.{branch_of};
ghost use Rattle.chart_meaning.specs.Step.{next_of, reply_of, start_of};

use crate::config::Config;
use crate::firing::firing;
use crate::moves::take_row;
use crate::path::Path;
use crate::rows::{Row, rows_of_leaves, ways_down};
use crate::start::start;
use chart_model::Chart;
use lin_form::{Reply, Signature, Vector};
use std::alloc::{AllocError, Global};
use std::marker::Model;
use subject::{Plan, Step};

/// A chart, made ready for steps.
#[derive(Drop)]
pub struct ChartPlan {
    chart: Chart,
    start: Config,
    /// For each leaf the transitions that may fire.
    rows: Vec<Vec<Row>>,
    /// For each state the start children below it.
    ways: Vec<Path>,
}

impl Model for ChartPlan {
    ghost use Rattle.chart_model.specs.declared.chart.Chart.{Chart};
    ghost use Rattle.chart_meaning.specs.Rows.{IsReady};
    ghost use Rattle.chart_model.specs.contracts.chart.Chart as row_of_chart;

    ghost Value = { Chart };

    ghost coded = { row_of_chart.the_row.coded };

    ghost view = { λ plan. plan.chart };

    ghost invariant = { λ plan. IsReady plan.chart plan.start plan.rows.items plan.ways.items };
}

impl ChartPlan {
    /// Makes a chart ready. The error is want of memory.
    pub fn new(alloc: Global, chart: Chart) -> Result<ChartPlan, AllocError>
        ensures { IfOk result (λ plan. plan ≡ chart) }
    {
        let ways = ways_down(alloc, &chart)?;
        let rows = rows_of_leaves(alloc, &chart)?;
        let start = start(&chart, ways.as_slice());
        Ok(ChartPlan {
            chart,
            start,
            rows,
            ways,
        })
    }

    /// The chart.
    pub fn chart(&self) -> &Chart
        ensures { result.now ≡ self.now }
    {
        &self.chart
    }

    /// The starting configuration. It takes no memory.
    pub fn start(&self) -> Config
        ensures start { result ≡ start_of self.now }
        ensures configuration { IsConfiguration self.now result }
    {
        self.start
    }

    /// One step from a configuration, for a vector with one number per input, each in its input's range. It takes no memory.
    #[inline(always)]
    pub fn step(&self, config: &Config, input: &Vector) -> Step<Config>
        requires fits { IsInInputRanges self.now.signature.inputs input.now }
        requires configuration { IsConfiguration self.now config.now }
        ensures state { result.state ≡ next_of self.now config.now input.now }
        ensures reply { result.reply ≡ reply_of self.now config.now input.now }
        ensures configuration { IsConfiguration self.now result.state }
    {
        let mut step = Step {
            state: *config,
            reply: Reply::from_slice(&[]),
        };
        self.go_on(&mut step.state, input);
        step.reply = Reply::from_slice(step.state.outputs());
        step
    }

    /// Makes one step in place: the configuration becomes that to which `step` leads. It takes no memory.
    pub fn go_on(&self, config: &mut Config, input: &Vector)
        requires fits { IsInInputRanges self.now.signature.inputs input.now }
        requires configuration { IsConfiguration self.now config.old }
        ensures state { config.new ≡ next_of self.now config.old input.now }
        ensures configuration { IsConfiguration self.now config.new }
    {
        let rows = &self.rows[config.leaf()];
        let place = firing(&self.chart, rows.as_slice(), config, input);
        if let Some(row) = rows.get(place) {
            take_row(&self.chart, self.ways.as_slice(), row, config);
        }
    }

    /// The number of the branch that a step takes: among the transitions that may fire, the place of the one that fires;
    /// where none fires, their number. Inputs with one branch lead from a configuration to the same configuration.
    pub fn branch(&self, config: &Config, input: &Vector) -> usize
        requires fits { IsInInputRanges self.now.signature.inputs input.now }
        requires configuration { IsConfiguration self.now config.now }
        ensures { result ≡ branch_of self.now config.now input.now }
    {
        let rows = &self.rows[config.leaf()];
        firing(&self.chart, rows.as_slice(), config, input)
    }
}

impl Plan for ChartPlan {
    type State = Config;

    ghost use Rattle.chart_meaning.specs.Plan.{branches_of_chart, plan_of_chart};
    ghost use Rattle.chart_meaning.specs.Same.{same_configurations};

    ghost plan = { plan_of_chart };

    ghost branches = { branches_of_chart };

    fn signature(&self) -> &Signature {
        &self.chart.signature
    }

    fn begin(&self) -> Config {
        self.start()
    }

    #[inline(always)]
    fn advance(&self, state: &Config, input: &Vector) -> Step<Config> {
        self.step(state, input)
    }

    fn branch(&self, state: &Config, input: &Vector) -> Option<usize> {
        let number = self.branch(state, input);
        Some(number)
    }

    ghost same = { same_configurations };
}
