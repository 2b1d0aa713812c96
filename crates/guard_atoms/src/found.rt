ghost use Rattle.std.specs.Prelude.{◌≡◌, ◌≤◌, ◌∷◌, [], IfOk, length, map};
ghost use Rattle.lin_form.specs.Atom.{inequality_of};
ghost use Rattle.guard_atoms.specs.inside.Adding.{Adds};

use crate::AtomError;
use indexmap::IndexSet;
use lin_form::{Atom, Atoms};
use std::alloc::{AllocError, Global};
use std::marker::Model;

/// The most atoms of a list.
const MOST: usize = 128;

/// Different atoms, in the order in which they were found. Contracts see their inequalities.
#[derive(Drop)]
pub(crate) struct Found {
    atoms: IndexSet<Atom>,
}

impl Model for Found {
    ghost use Rattle.std.specs.Prelude.{List, map};
    ghost use Rattle.indexmap.specs.IndexSet.{IsUnique};
    ghost use Rattle.lin_form.specs.Atom.{inequality_of};
    ghost use Rattle.lin_form.specs.Inequality.{Inequality};
    ghost use Rattle.lin_form.specs.SameAtom.{same_atom};

    ghost Value = { List Inequality };

    ghost view = { λ found. map inequality_of found.atoms.keys };

    ghost invariant = { λ found. IsUnique same_atom found.atoms };
}

impl Found {
    pub(crate) fn new(alloc: Global) -> Found
        ensures { result ≡ [] }
    {
        Found {
            atoms: IndexSet::new(alloc),
        }
    }

    /// Adds an atom where it is not there yet.
    pub(crate) fn add(&mut self, atom: Atom) -> Result<(), AtomError>
        ensures { Adds self.old (inequality_of atom ∷ []) self.new result }
    {
        let Ok(_) = self.atoms.insert(atom) else {
            return Err(AtomError::Memory);
        };
        if self.atoms.len() > MOST {
            return Err(AtomError::TooMany);
        }
        Ok(())
    }

    /// The atoms that were found.
    pub(crate) fn into_atoms(self, alloc: Global) -> Result<Atoms, AllocError>
        requires { length self ≤ 128 }
        ensures { IfOk result (λ atoms. map inequality_of atoms ≡ self) }
    {
        let mut list = Vec::new(alloc);
        for atom in self.atoms {
            list.push(atom)?;
        }
        Ok(Atoms::from_list(list))
    }
}
