//! The constants as an algebra by structure constants.

ghost use Rattle.std.specs.Prelude.{◌≡◌, ◌++◌, List, length, map, All, IfOk, OnOk};
ghost use Rattle.ring_theory.specs.Subsets.{IsSubring, products};
ghost use Rattle.function_field.specs.Divisors.{IsConstant, IsSpaceBasis};
ghost use Rattle.function_field.specs.Values.{IsPresOver, IsElem, Functions, functions, function_of, equation_of, setting};
ghost use Rattle.ff_falg.specs.Algebras.{IsVector};
ghost use Rattle.ff_falg.specs.Idempotents.{elements_of};
ghost use Rattle.ff_space.specs.Spaces.{IsSpaceForm};
ghost use Rattle.idempotents_theory.specs.Coordinates.{IsStructureOf};
ghost use Rattle.ff_rr.specs.Listings.{function_at, AreVectorsOf};

use ff_algebra::elem::{Elem, Pres, mul};
use ff_fields::field::SmallField;
use ff_ideal::valuations::polynomial_elem;
use ff_poly::Poly;
use ff_space::{PrintedBasis, coordinates};
use ff_structure::Structure;
use std::alloc::{AllocError, Global};

/// The coordinates of a constant in the printed basis of the constants.
fn constant_coordinates<K: SmallField>(
    alloc: Global,
    k: &K,
    p: &Pres,
    s: &PrintedBasis,
    z: &Elem,
) -> Result<Vec<u32>, AllocError>
    requires p_in { IsPresOver (K.field k.now).ops p.now }
    requires form { IsSpaceForm (K.field k.now) p.now s.now }
    requires basis { let k = K.field k.now in
        IsSpaceBasis (setting k p.now) (IsConstant (setting k p.now)) (map (function_of k p.now) s.now.functions) }
    requires z_in { IsElem (K.field k.now).ops p.now.n z.now }
    requires constant { let k = K.field k.now in IsConstant (setting k p.now) (function_of k p.now z.now) }
    ensures vector { IfOk result (λ v. IsVector (K.field k.now).ops (length s.now.functions) v.items) }
    ensures is { let k = K.field k.now in
        IfOk result (λ v. function_at k p.now s.now.functions v.items ≡ function_of k p.now z.now) }
{
    let degree = p.n();
    prove!(degree > 0);
    match coordinates(alloc, k, p, s, z)? {
        Some(codes) => Ok(codes),
        None => unreachable!(),
    }
}

/// Appends the coordinates of the products of a constant by each function of the basis.
fn push_products<K: SmallField>(
    alloc: Global,
    k: &K,
    p: &Pres,
    s: &PrintedBasis,
    a: &Elem,
    table: &mut Vec<Vec<u32>>,
) -> Result<(), AllocError>
    requires p_in { IsPresOver (K.field k.now).ops p.now }
    requires form { IsSpaceForm (K.field k.now) p.now s.now }
    requires basis { let k = K.field k.now in
        IsSpaceBasis (setting k p.now) (IsConstant (setting k p.now)) (map (function_of k p.now) s.now.functions) }
    requires elements { All (IsElem (K.field k.now).ops p.now.n) s.now.functions }
    requires ring { let k = K.field k.now in IsSubring (functions k p.now).ops (IsConstant (setting k p.now)) }
    requires a_in { IsElem (K.field k.now).ops p.now.n a.now }
    requires constant { let k = K.field k.now in IsConstant (setting k p.now) (function_of k p.now a.now) }
    ensures { let k = K.field k.now in let F = functions k p.now in
        OnOk result ((gs : List (Functions k p.now))
        → AreVectorsOf k p.now s.now.functions gs (elements_of table.old.items)
        → AreVectorsOf k p.now s.now.functions
        (gs ++ map (F.◌⊗◌ (function_of k p.now a.now)) (map (function_of k p.now) s.now.functions))
        (elements_of table.new.items)) }
{
    let functions = s.functions();
    for b in functions {
        let product = mul(alloc, k, p, a, b)?;
        table.push(constant_coordinates(alloc, k, p, s, &product)?)?;
    }
    Ok(())
}

/// The coordinates of the products of any two functions of the basis.
fn table<K: SmallField>(
    alloc: Global,
    k: &K,
    p: &Pres,
    s: &PrintedBasis,
) -> Result<Vec<Vec<u32>>, AllocError>
    requires p_in { IsPresOver (K.field k.now).ops p.now }
    requires form { IsSpaceForm (K.field k.now) p.now s.now }
    requires basis { let k = K.field k.now in
        IsSpaceBasis (setting k p.now) (IsConstant (setting k p.now)) (map (function_of k p.now) s.now.functions) }
    requires elements { All (IsElem (K.field k.now).ops p.now.n) s.now.functions }
    requires ring { let k = K.field k.now in IsSubring (functions k p.now).ops (IsConstant (setting k p.now)) }
    ensures { let k = K.field k.now in
        let bs = map (function_of k p.now) s.now.functions in
        IfOk result (λ t. AreVectorsOf k p.now s.now.functions (products (functions k p.now).ops bs bs)
        (elements_of t.items)) }
{
    let functions = s.functions();
    let mut table = Vec::new(alloc);
    for a in functions {
        push_products(alloc, k, p, s, a, &mut table)?;
    }
    Ok(table)
}

/// The constants as an algebra, by the structure constants of their printed basis.
pub(crate) fn structure<K: SmallField>(
    alloc: Global,
    k: &K,
    p: &Pres,
    s: &PrintedBasis,
) -> Result<Structure, AllocError>
    requires p_in { IsPresOver (K.field k.now).ops p.now }
    requires form { IsSpaceForm (K.field k.now) p.now s.now }
    requires basis { let k = K.field k.now in
        IsSpaceBasis (setting k p.now) (IsConstant (setting k p.now)) (map (function_of k p.now) s.now.functions) }
    requires elements { All (IsElem (K.field k.now).ops p.now.n) s.now.functions }
    requires ring { let k = K.field k.now in IsSubring (functions k p.now).ops (IsConstant (setting k p.now)) }
    ensures { let k = K.field k.now in
        IfOk result (IsStructureOf (equation_of k p.now) (map (function_of k p.now) s.now.functions)) }
{
    let one = polynomial_elem(alloc, k, p.n(), Poly::one(alloc)?)?;
    let unit = constant_coordinates(alloc, k, p, s, &one)?;
    let table = table(alloc, k, p, s)?;
    Ok(Structure::new(unit, table))
}
