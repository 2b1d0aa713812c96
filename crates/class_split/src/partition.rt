ghost use Rattle.std.specs.Prelude.{◌≡◌};
ghost use Rattle.class_split.specs.ExactPartition.{IsExactPartition};

use input_classes::Class;
use lin_form::{Atoms, Bounds, Literal};
use std::marker::Model;

/// The input equivalence classes of a box by the truths of atoms (Huang and Peleska): at least 1 and at most 4,096.
///
/// The box is the vectors of the bounds on which each assumed literal is as it says.
#[derive(Drop)]
pub struct Partition {
    pub(crate) atoms: Atoms,
    pub(crate) bounds: Bounds,
    pub(crate) assumed: Vec<Literal>,
    pub(crate) classes: Vec<Class>,
}

impl Model for Partition {
    ghost use Rattle.input_classes.specs.Partition.{Partition as Value'};
    ghost use Rattle.class_split.specs.ExactPartition.{IsExactPartition, partition_of};

    ghost Value = { Value' };

    ghost view = { λ p. partition_of p.atoms p.bounds p.assumed.items p.classes.items };

    ghost invariant = { λ p. IsExactPartition (partition_of p.atoms p.bounds p.assumed.items p.classes.items) };
}

impl Partition {
    /// The classes in the order of their patterns, with false before true.
    pub fn classes(&self) -> &[Class]
        ensures value { result.now ≡ self.now.classes }
        ensures exact { IsExactPartition self.now }
    {
        self.classes.as_slice()
    }

    pub fn atoms(&self) -> &Atoms
        ensures value { result.now ≡ self.now.atoms }
        ensures exact { IsExactPartition self.now }
    {
        &self.atoms
    }

    /// The ranges of the box.
    pub fn bounds(&self) -> &Bounds
        ensures value { result.now ≡ self.now.ranges }
        ensures exact { IsExactPartition self.now }
    {
        &self.bounds
    }

    /// The literals that are as they say on each vector of the box, at most 32.
    pub fn assumed(&self) -> &[Literal]
        ensures value { result.now ≡ self.now.assumed }
        ensures exact { IsExactPartition self.now }
    {
        self.assumed.as_slice()
    }
}
