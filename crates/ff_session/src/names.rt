//! The places that names are bound to.

ghost use Rattle.std.specs.Prelude.{◌≡◌, ◌↔◌, [], ◌∷◌, ◌++◌, IsTrue, IfOk, OnOk, OnErr};
ghost use Rattle.ff_meaning.specs.Bindings.{IsNameOf};

use ff_ideal::Prime;
use ff_script::Name;
use indexmap::IndexMap;
use std::alloc::{AllocError, Global};
use std::marker::Model;

/// Places by their names, in the order in which they were bound.
#[derive(Drop)]
pub(crate) struct Names {
    places: IndexMap<Vec<u8>, Prime>,
}

impl Model for Names {
    ghost use Rattle.std.specs.Prelude.{List};
    ghost use Rattle.ff_meaning.specs.Bindings.{NamedPlace};
    ghost use Rattle.ff_session.specs.Names.{named_places};

    ghost Value = { List NamedPlace };

    ghost view = { λ n. named_places n.places.entries };
}

impl Names {
    /// No name is bound. No memory is taken.
    pub(crate) fn new(alloc: Global) -> Names
        ensures { result ≡ [] }
    {
        Names {
            places: IndexMap::new(alloc),
        }
    }

    /// Whether the name is bound.
    pub(crate) fn contains(&self, name: &Name) -> bool
        ensures { IsTrue result ↔ IsNameOf name.now self.now }
    {
        self.places.contains_key(name.letters.as_slice())
    }

    /// Binds a name that isn't bound.
    pub(crate) fn bind(&mut self, name: Name, place: Prime) -> Result<(), AllocError>
        requires { ¬ IsNameOf name self.old }
        ensures bound { OnOk result (self.new ≡ self.old ++ record { name = name; place = place } ∷ []) }
        ensures unchanged { OnErr result (self.new ≡ self.old) }
    {
        self.places.insert(name.letters, place)?;
        Ok(())
    }

    /// The same names, in memory of their own.
    pub(crate) fn copy(&self, alloc: Global) -> Result<Names, AllocError>
        ensures { IfOk result (λ n. n ≡ self.now) }
    {
        let mut places = IndexMap::new(alloc);
        for (name, place) in self.places.iter() {
            let name = name.as_slice().to_vec(alloc)?;
            places.insert(name, place.copy(alloc)?)?;
        }
        Ok(Names { places })
    }
}
