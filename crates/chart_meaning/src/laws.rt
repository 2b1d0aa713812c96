ghost use Rattle.std.specs.Prelude.{◌≡◌, ◌<◌, ℤ, List, [], ◌∷◌, length, unsigned_abs};
ghost use Rattle.std.specs.List.{All};
ghost use Rattle.std.specs.Option.{option_map_or};
ghost use Rattle.chart_model.specs.States.{parent_of};
ghost use Rattle.chart_model.specs.declared.chart.Chart.{Chart};
ghost use Rattle.subject.specs.Meaning.{IsReached, RepliesFit};
ghost use Rattle.chart_meaning.specs.Configuration.{Configuration};
ghost use Rattle.chart_meaning.specs.IsConfiguration.{IsConfiguration};
ghost use Rattle.chart_meaning.specs.Plan.{plan_of_chart};
ghost use Rattle.chart_meaning.specs.Step.{is_guard_true, next_of, reply_of, start_of};
ghost use Rattle.chart_meaning.specs.Tree.{start_child, start_descendants, ancestors};

use chart_model::Chart;

/// No list is cut short: the ancestors of a state go on with those of the state that contains it, and the start
/// descendants with those of the start child.
pub fn ways_are_whole(chart: &Chart, state: usize)
    requires { state < length chart.now.states }
    ensures out { ancestors chart.now.states state
        ≡ state ∷ option_map_or (ancestors chart.now.states) (parent_of chart.now.states state) [] }
    ensures down { start_descendants chart.now.states state
        ≡ option_map_or (λ child. child ∷ start_descendants chart.now.states child) (start_child chart.now.states state) [] }
{}

/// What is reached are configurations: the chart starts in one, steps lead to others, and each reply has one number
/// per output, below 1,000,000,000,000 in absolute value.
pub fn configurations_go_on()
    ensures start { (chart : Chart) → IsConfiguration chart (start_of chart) }
    ensures next { (chart : Chart) (c : Configuration) (x : List ℤ)
        → IsConfiguration chart c → IsConfiguration chart (next_of chart c x) }
    ensures reached { (chart : Chart) (c : Configuration) → IsReached (plan_of_chart chart) c → IsConfiguration chart c }
    ensures replies { (chart : Chart) → RepliesFit (plan_of_chart chart) }
    ensures limited { (chart : Chart) (c : Configuration) (x : List ℤ) → IsReached (plan_of_chart chart) c
        → All (λ number. unsigned_abs number < 1000000000000) (reply_of chart c x) }
{}

/// A step depends on the vector only through the truths of the guards: where these are the same on two vectors, both
/// lead to the same configuration.
pub fn guards_decide_steps()
    ensures { (chart : Chart) (c : Configuration) (x y : List ℤ)
        → All (λ transition. is_guard_true x c.memory transition ≡ is_guard_true y c.memory transition) chart.transitions
        → next_of chart c x ≡ next_of chart c y }
{}
