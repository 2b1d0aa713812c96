//! Laws of the definitions: atoms decide what a chart does.
ghost use Rattle.std.specs.Prelude.{◌≡◌, ℤ, List, map};
ghost use Rattle.std.specs.List.{All};
ghost use Rattle.lin_form.specs.Atom.{inequality_of};
ghost use Rattle.lin_form.specs.Inequality.{says};
ghost use Rattle.lin_form.specs.declared.atom.Atom.{Atom};
ghost use Rattle.lin_form.specs.declared.form.Comparison.{Comparison};
ghost use Rattle.input_classes.specs.Partition.{Partition, pattern_of};
ghost use Rattle.input_classes.specs.VectorSet.{VectorSet};
ghost use Rattle.subject.specs.Alike.{ActsLike, MembersActAlike};
ghost use Rattle.chart_model.specs.declared.chart.Chart.{Chart};
ghost use Rattle.chart_meaning.specs.Configuration.{Configuration};
ghost use Rattle.chart_meaning.specs.IsConfiguration.{IsConfiguration};
ghost use Rattle.chart_meaning.specs.Plan.{plan_of_chart};
ghost use Rattle.chart_meaning.specs.Step.{next_of};
ghost use Rattle.guard_atoms.specs.Atoms.{atoms_in};

/// Vectors on which all atoms have the same truths lead alike from every configuration, to the same configuration.
pub fn atoms_decide_steps()
    ensures { (chart : Chart) (cuts : List Comparison) (c : Configuration) (x y : List ℤ) → IsConfiguration chart c
        → All (λ atom. says atom x ≡ says atom y) (atoms_in chart cuts) → next_of chart c x ≡ next_of chart c y }
{}

/// Vectors with the same pattern act alike in the chart's plan, over every set of vectors.
pub fn patterns_act_alike()
    ensures { (chart : Chart) (cuts : List Comparison) (atoms : List Atom) (s : VectorSet) (x y : List ℤ)
        → map inequality_of atoms ≡ atoms_in chart cuts → pattern_of atoms x ≡ pattern_of atoms y
        → ActsLike s (plan_of_chart chart) x y }
{}

/// The members of each class act alike in the chart's plan, over the box and over every other set of vectors.
pub fn members_act_alike()
    ensures { (chart : Chart) (cuts : List Comparison) (r : Partition) (s : VectorSet)
        → map inequality_of r.atoms ≡ atoms_in chart cuts → MembersActAlike s r (plan_of_chart chart) }
{}
