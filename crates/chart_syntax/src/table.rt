ghost use Rattle.std.specs.Prelude.{◌≡◌, ◌++◌, ◌∷◌, [], ◌<◌, length, false, map, OnOk, OnErr, IfSome};
ghost use Rattle.line_checks.specs.Names.{has_name, place_of};

use indexmap::IndexSet;
use lin_form::Name;
use std::alloc::{AllocError, Global};
use std::marker::Model;

/// What has a name.
pub trait Named: Copy {
    ghost use Rattle.std.specs.Prelude.{ℕ, List};

    ghost name_of: { Self → List ℕ };

    fn name(&self) -> Name
        ensures { result ≡ name_of self.now };
}

/// Declared things in order, which are found by their names.
#[derive(Drop)]
pub struct NameTable<T: Named> {
    list: Vec<T>,
    names: IndexSet<Name>,
}

impl<T: Named> Model for NameTable<T> {
    ghost use Rattle.std.specs.Prelude.{◌≡◌, List, map};

    ghost Value = { List T };

    ghost view = { λ table. table.list.items };

    ghost invariant = { λ table. table.names.keys ≡ map T.name_of table.list.items };
}

impl<T: Named> NameTable<T> {
    pub fn new(alloc: Global) -> NameTable<T>
        ensures { result ≡ [] }
    {
        NameTable {
            list: Vec::new(alloc),
            names: IndexSet::new(alloc),
        }
    }

    pub fn len(&self) -> usize
        ensures { result ≡ length self.now }
    {
        self.list.len()
    }

    pub fn as_slice(&self) -> &[T]
        ensures { result.now ≡ self.now }
    {
        self.list.as_slice()
    }

    /// Whether something has the name.
    pub fn has(&self, name: Name) -> bool
        ensures { result ≡ has_name name (map T.name_of self.now) }
    {
        self.names.contains(&name)
    }

    /// The number of the first that has the name.
    pub fn find(&self, name: Name) -> Option<usize>
        ensures place { result ≡ place_of name (map T.name_of self.now) }
        ensures within { IfSome result (λ i. i < length self.now) }
    {
        self.names.get_index_of(&name)
    }

    pub fn push(&mut self, element: T) -> Result<(), AllocError>
        requires { has_name (T.name_of element) (map T.name_of self.old) ≡ false }
        ensures ok { OnOk result (self.new ≡ self.old ++ element ∷ []) }
        ensures err { OnErr result (self.new ≡ self.old) }
    {
        self.list.reserve(1)?;
        if self.names.insert(element.name()).is_err() {
            return Err(AllocError);
        }
        match self.list.push(element) {
            Ok(()) => Ok(()),
            Err(_) => unreachable!(),
        }
    }
}
