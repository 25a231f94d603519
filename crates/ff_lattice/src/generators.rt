//! Lattices from generators.

ghost use Rattle.std.specs.Prelude.{◌≡◌, ◌≢◌, ◌↔◌, ◌<◌, [], All, IfOk, IsTrue};
ghost use Rattle.ff_fields.specs.Over.{IsOver};
ghost use Rattle.ff_poly.specs.Words.{IsPoly, IsMonicList, DividesList};
ghost use Rattle.ff_poly.specs.Popov.{rows_of};
ghost use Rattle.function_field.specs.Values.{Functions, IsElem};
ghost use Rattle.ff_lattice.specs.Lattices.{IsLatticeValue, Contains, InSpanOf, IsFullLattice};
ghost use Rattle.ff_lattice.specs.Steps.{IsCommonMultiple, IsExpanded};
ghost use Rattle.ff_lattice.specs.declared.generators.LatticeFault.{LatticeFault};
ghost use Rattle.ff_lattice.specs.declared.generators.LatticeFault.TheVariants.{NotFull, Memory};

use crate::denominators::exact_quotient;
use crate::lattice::{Lattice, from_rows};
use crate::rows::multiple_row;
use ff_algebra::{Elem, Pres};
use ff_fields::field::SmallField;
use ff_poly::{Poly, poly};
use std::alloc::{AllocError, Global};

/// Why generators give no lattice.
#[derive(Clone, Copy, Debug, PartialEq, Eq)]
pub enum LatticeFault {
    /// Their rank is below the degree in y.
    NotFull,
    /// There was no memory.
    Memory,
}

impl From<AllocError> for LatticeFault {
    ghost from_gives = { λ _ e. e ≡ Memory };

    fn from(_e: AllocError) -> LatticeFault {
        LatticeFault::Memory
    }
}

/// Does d divide e?
fn divides<K: SmallField>(alloc: Global, k: &K, d: &Poly, e: &Poly) -> Result<bool, AllocError>
    requires d_in { IsOver (K.field k.now).ops d.now }
    requires d_some { d.now ≢ [] }
    requires e_in { IsOver (K.field k.now).ops e.now }
    ensures { IfOk result (λ r. IsTrue r → IsPoly e.now → DividesList (K.field k.now).ops d.now e.now) }
{
    let (_, rest) = poly::divide(alloc, k, e, d)?;
    Ok(rest.is_zero())
}

/// A monic polynomial that e and d divide: e, or their product.
fn common_multiple<K: SmallField>(
    alloc: Global,
    k: &K,
    e: Poly,
    d: &Poly,
) -> Result<Poly, AllocError>
    requires e_in { IsOver (K.field k.now).ops e }
    requires e_monic { IsMonicList e }
    requires d_in { IsOver (K.field k.now).ops d.now }
    requires d_monic { IsMonicList d.now }
    ensures { IfOk result (IsCommonMultiple (K.field k.now).ops e d.now) }
{
    if divides(alloc, k, d, &e)? {
        return Ok(e);
    }
    let product = poly::mul(alloc, k, &e, d)?;
    Ok(product)
}

/// A monic polynomial that each denominator divides.
pub(crate) fn common_denominator<K: SmallField>(
    alloc: Global,
    k: &K,
    gens: &[Elem],
    n: usize,
) -> Result<Poly, AllocError>
    requires { All (IsElem (K.field k.now).ops n) gens.now }
    ensures over { IfOk result (IsOver (K.field k.now).ops) }
    ensures monic { IfOk result IsMonicList }
    ensures divides { IfOk result (λ e. All (λ z. DividesList (K.field k.now).ops z.den e) gens.now) }
{
    let mut e = Poly::one(alloc)?;
    for z in gens {
        e = common_multiple(alloc, k, e, z.den())?;
    }
    Ok(e)
}

/// The numerators over a polynomial that each denominator divides.
pub(crate) fn numerators<K: SmallField>(
    alloc: Global,
    k: &K,
    gens: &[Elem],
    n: usize,
    e: &Poly,
) -> Result<Vec<Vec<Poly>>, AllocError>
    requires gens_in { All (IsElem (K.field k.now).ops n) gens.now }
    requires e_in { IsOver (K.field k.now).ops e.now }
    requires e_monic { IsMonicList e.now }
    requires divides { All (λ z. DividesList (K.field k.now).ops z.den e.now) gens.now }
    ensures { IfOk result (λ rows. IsExpanded (K.field k.now).ops n e.now gens.now (rows_of rows.items)) }
{
    let mut rows = Vec::new(alloc);
    for z in gens {
        let factor = exact_quotient(alloc, k, e, z.den())?;
        let row = multiple_row(alloc, k, &factor, z.num())?;
        rows.push(row)?;
    }
    Ok(rows)
}

impl Lattice {
    /// The lattice of all combinations of the generators over k[x]; NotFull exactly where their rank is below the
    /// degree in y. It takes the time of a Popov basis of the numerators over a common denominator, which has at most
    /// the degree of the product of the different denominators, and of the least denominator.
    pub fn from_generators<K: SmallField>(
        alloc: Global,
        k: &K,
        p: &Pres,
        gens: &[Elem],
    ) -> Result<Lattice, LatticeFault>
        requires { All (IsElem (K.field k.now).ops p.now.n) gens.now }
        ensures form { IfOk result (IsLatticeValue (K.field k.now).ops p.now.n) }
        ensures members { let k = K.field k.now in
            IfOk result (λ l. (z : Functions k p.now) → Contains k p.now l z ↔ InSpanOf k p.now gens.now z) }
        ensures full { let k = K.field k.now in IfOk result (λ l. IsFullLattice k p.now (Contains k p.now l)) }
        ensures not_full { let k = K.field k.now in result ≡ Err NotFull
            → ¬ IsFullLattice k p.now (InSpanOf k p.now gens.now) }
    {
        let e = common_denominator(alloc, k, gens, p.n())?;
        let rows = numerators(alloc, k, gens, p.n(), &e)?;
        match from_rows(alloc, k, rows, p.n(), &e)? {
            None => Err(LatticeFault::NotFull),
            Some(lattice) => Ok(lattice),
        }
    }
}
