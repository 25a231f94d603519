//! All idempotents of an algebra, as sums of primitive ones.

ghost use Rattle.std.specs.Prelude.{◌≡◌, ◌<◌, ◌≤◌, ◌++◌, ◌∷◌, [], ℕ, List, length, map, All, IfOk, OnOk};
ghost use Rattle.ff_fields.specs.Code.{raw_ring};
ghost use Rattle.ff_fields.specs.Over.{IsOver};
ghost use Rattle.ring_lemmas.specs.Lists.{add_lists};
ghost use Rattle.ring_theory.specs.Members.{In, IsDistinct};
ghost use Rattle.ff_falg.specs.Algebras.{IsVector};
ghost use Rattle.ff_falg.specs.Idempotents.{elements_of, IsPrimitiveList};
ghost use Rattle.ff_structure.specs.Structures.{IsStructure, structure_algebra};
ghost use Rattle.ff_structure.specs.Idempotents.{IsProperIdempotentVector, AreIdempotents, AreOthers, IsPushedUnless};

use crate::structure::Structure;
use ff_falg::idempotents;
use ff_fields::field::SmallField;
use ff_linalg::add_multiple;
use std::alloc::{AllocError, Global};

/// The sum of two vectors of equally many codes.
fn sum<K: SmallField>(alloc: Global, k: &K, a: &[u32], b: &[u32]) -> Result<Vec<u32>, AllocError>
    requires size { length a.now ≡ length b.now }
    requires a_in { IsOver (K.field k.now).ops a.now }
    requires b_in { IsOver (K.field k.now).ops b.now }
    ensures { IfOk result (λ v. v.items ≡ add_lists (raw_ring (K.field k.now).ops) a.now b.now) }
{
    let mut sum = a.to_vec(alloc)?;
    add_multiple(k, sum.as_mut_slice(), 1, b);
    Ok(sum)
}

/// Appends the sum of e and each of the vectors that are there.
fn push_sums<K: SmallField>(
    alloc: Global,
    k: &K,
    sums: &mut Vec<Vec<u32>>,
    e: &[u32],
) -> Result<(), AllocError>
    requires e_in { IsOver (K.field k.now).ops e.now }
    requires sums_in { All (IsVector (K.field k.now).ops (length e.now)) (elements_of sums.old.items) }
    ensures { OnOk result (elements_of sums.new.items ≡ elements_of sums.old.items
        ++ map (add_lists (raw_ring (K.field k.now).ops) e.now) (elements_of sums.old.items)) }
{
    for i in 0..sums.len() {
        let more = sum(alloc, k, e, sums[i].as_slice())?;
        sums.push(more)?;
    }
    Ok(())
}

/// The sums of no, one or more of the primitive idempotents, which are all idempotents.
fn sums_of<K: SmallField>(
    alloc: Global,
    k: &K,
    a: &Structure,
    primitive: &[Vec<u32>],
) -> Result<Vec<Vec<u32>>, AllocError>
    requires over { IsStructure (K.field k.now) a.now }
    requires primitive { IsPrimitiveList (K.field k.now).ops (structure_algebra a.now) (elements_of primitive.now) }
    ensures { IfOk result (λ v. AreIdempotents (K.field k.now).ops (structure_algebra a.now) (elements_of v.items)) }
{
    let mut sums = Vec::new(alloc);
    sums.push(a.zero(alloc)?)?;
    for e in primitive {
        push_sums(alloc, k, &mut sums, e.as_slice())?;
    }
    Ok(sums)
}

/// Appends e, unless it is u or v.
fn push_other(
    alloc: Global,
    kept: &mut Vec<Vec<u32>>,
    e: &[u32],
    u: &[u32],
    v: &[u32],
) -> Result<(), AllocError>
    ensures { OnOk result (IsPushedUnless u.now v.now e.now (elements_of kept.old.items)
        (elements_of kept.new.items)) }
{
    if e == u || e == v {
        return Ok(());
    }
    kept.push(e.to_vec(alloc)?)?;
    Ok(())
}

/// The vectors other than u and v.
fn others(
    alloc: Global,
    vectors: &[Vec<u32>],
    u: &[u32],
    v: &[u32],
) -> Result<Vec<Vec<u32>>, AllocError>
    ensures { IfOk result (λ kept. AreOthers u.now v.now (elements_of vectors.now) (elements_of kept.items)) }
{
    let mut kept = Vec::new(alloc);
    for e in vectors {
        push_other(alloc, &mut kept, e.as_slice(), u, v)?;
    }
    Ok(kept)
}

/// All idempotents other than 0 and 1, each once: the sums of some of the primitive idempotents, but of not all of them.
/// Cost: that of `ff_falg::idempotents`, and 2^r sums of vectors, where r is the number of primitive idempotents.
pub fn all_idempotents<K: SmallField>(
    alloc: Global,
    k: &K,
    a: &Structure,
) -> Result<Vec<Vec<u32>>, AllocError>
    requires { IsStructure (K.field k.now) a.now }
    ensures each { let proper = IsProperIdempotentVector (K.field k.now).ops (structure_algebra a.now) in
        IfOk result (λ es. (e : List ℕ) → In e (elements_of es.items) → proper e) }
    ensures all { let proper = IsProperIdempotentVector (K.field k.now).ops (structure_algebra a.now) in
        IfOk result (λ es. (e : List ℕ) → proper e → In e (elements_of es.items)) }
    ensures once { IfOk result (λ es. IsDistinct (elements_of es.items)) }
{
    let primitive = idempotents(alloc, k, a)?;
    let sums = sums_of(alloc, k, a, primitive.as_slice())?;
    let zero = a.zero(alloc)?;
    others(alloc, sums.as_slice(), zero.as_slice(), a.unit())
}
