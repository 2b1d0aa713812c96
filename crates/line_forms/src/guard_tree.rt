ghost use Rattle.std.specs.Prelude.{◌≡◌};
ghost use Rattle.line_forms.specs.Trees.{plain};

use crate::statement::TestForm;
use std::marker::Model;

/// A guard as it is written. Chains of `and` and of `or` associate to the left.
#[derive(Drop)]
pub enum GuardTree {
    Test(TestForm),
    Not(Box<GuardTree>),
    And(Box<GuardTree>, Box<GuardTree>),
    Or(Box<GuardTree>, Box<GuardTree>),
}

/// The guard of a line, which contracts see as its tree.
#[derive(Drop)]
pub struct GuardForm {
    tree: GuardTree,
}

impl Model for GuardForm {
    ghost use Rattle.line_forms.specs.Trees.{Tree, tree_code, plain};

    ghost Value = { Tree };

    ghost coded = { tree_code };

    ghost view = { λ guard. plain guard.tree };
}

impl GuardForm {
    pub fn new(tree: GuardTree) -> GuardForm
        ensures { result ≡ plain tree }
    {
        GuardForm { tree }
    }

    pub fn tree(&self) -> &GuardTree
        ensures { plain result.now ≡ self.now }
    {
        &self.tree
    }
}
