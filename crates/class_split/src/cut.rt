ghost use Rattle.std.specs.Prelude.{◌≡◌, pos, neg_ℤ, ◌-ℤ◌, length, IfSome, MatchBool};
ghost use Rattle.linear_refuter.specs.Cut.{IsCut, above, below};
ghost use Rattle.class_split.specs.inside.Region.{IsCutOf, IsSingle};

use lin_form::Atom;
use linear_refuter::Part;

/// The cut of a part that an atom of one variable makes, where it leaves numbers on both sides.
pub(crate) fn cut_of(part: &Part, atom: &Atom) -> Option<(usize, i64)>
    requires { length atom.now.coefficients ≡ length part.now }
    ensures { IfSome result (λ c. IsCutOf part.now atom.now c.0 c.1) }
{
    let variable = leading(atom);
    if !is_single(atom, variable) {
        return None;
    }
    let at = last_below(atom);
    if !part.is_cut(variable, at) {
        return None;
    }
    Some((variable, at))
}

/// The first variable with a coefficient other than 0.
fn leading(atom: &Atom) -> usize {
    for (variable, coefficient) in atom.coefficients.as_slice().iter().enumerate() {
        if *coefficient != 0 {
            return variable;
        }
    }
    0
}

/// Whether the coefficient of this variable is 1, and every other is 0.
fn is_single(atom: &Atom, variable: usize) -> bool
    ensures { MatchBool result (IsSingle atom.now variable) (Unit {0}) }
{
    for (index, coefficient) in atom.coefficients.as_slice().iter().enumerate() {
        if index == variable {
            if *coefficient != 1 {
                return false;
            }
        } else if *coefficient != 0 {
            return false;
        }
    }
    true
}

/// The greatest number of its variable on which an atom of one variable does not hold.
fn last_below(atom: &Atom) -> i64
    ensures { result ≡ (neg_ℤ atom.now.constant -ℤ pos 1) }
{
    -atom.constant - 1
}

/// The part above the cut, or the part up to it.
pub(crate) fn side(part: &Part, variable: usize, at: i64, holds: bool) -> Part
    requires { IsCut part.now variable at }
    ensures value { MatchBool holds (result ≡ above part.now variable at) (result ≡ below part.now variable at) }
    ensures width { length result ≡ length part.now }
{
    if holds {
        part.above(variable, at)
    } else {
        part.below(variable, at)
    }
}
