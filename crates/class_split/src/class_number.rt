ghost use Rattle.std.specs.Prelude.{◌≡◌, ◌≤◌, ◌<◌, length, All, Contains, Some, slice_get};
ghost use Rattle.input_classes.specs.declared.class.Class.{Class};
ghost use Rattle.input_classes.specs.Order.{AreAscending, IsPatternBefore};
ghost use Rattle.input_classes.specs.Partition.{pattern_of, patterns};
ghost use Rattle.input_classes.specs.VectorSet.{IsInBox};
ghost use Rattle.linear_refuter.specs.Sum.{Tells};
ghost use Rattle.class_split.specs.inside.Node.{AreTruths};
ghost use Rattle.class_split.specs.inside.Places.{patterns_of};

use crate::Partition;
use input_classes::Class;
use lin_form::{Atom, Vector, atom_holds};

impl Partition {
    /// The class of a vector of the box, counted from 0. It takes no memory.
    ///
    /// The truth of each atom is computed once, and then the pattern is sought by halving.
    pub fn class_of(&self, vector: &Vector) -> u16
        requires { IsInBox self.now.ranges self.now.assumed vector.now }
        ensures { slice_get (patterns self.now) result ≡ Some (pattern_of self.now.atoms vector.now) }
    {
        let atoms = self.atoms().as_slice();
        let truths = truths_of(atoms, vector);
        let place = place_of(self.classes(), &truths[..atoms.len()]);
        place as u16
    }
}

/// The truths of the atoms on a vector, in the first places.
fn truths_of(atoms: &[Atom], vector: &Vector) -> [bool; 128]
    requires short { length atoms.now ≤ 128 }
    requires width { All (λ atom. length atom.coefficients ≡ length vector.now) atoms.now }
    ensures { AreTruths (length atoms.now) atoms.now vector.now result }
{
    let mut truths = [false; 128];
    for index in 0..atoms.len() {
        truths[index] = atom_holds(&atoms[index], vector);
    }
    truths
}

/// The place of a pattern among those of classes in ascending order, one of which has it.
fn place_of(classes: &[Class], pattern: &[bool]) -> usize
    requires ascending { AreAscending (patterns_of classes.now) }
    requires there { Contains (patterns_of classes.now) pattern.now }
    requires same { All (λ (c : Class). length c.pattern ≡ length pattern.now) classes.now }
    ensures { slice_get (patterns_of classes.now) result ≡ Some pattern.now }
{
    let mut from = 0;
    let mut to = classes.len();
    while to - from > 1 {
        let middle = from + (to - from) / 2;
        if is_before(pattern, classes[middle].pattern.as_slice()) {
            to = middle;
        } else {
            from = middle;
        }
    }
    from
}

/// Whether one pattern comes before another of as many truths.
fn is_before(one: &[bool], other: &[bool]) -> bool
    requires { length one.now ≡ length other.now }
    ensures { Tells result (IsPatternBefore one.now other.now) }
{
    for index in 0..one.len() {
        if one[index] != other[index] {
            return other[index];
        }
    }
    false
}
