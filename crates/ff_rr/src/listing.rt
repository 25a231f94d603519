//! The idempotents of a function field as they are listed.

ghost use Rattle.std.specs.Prelude.{◌≡◌, ◌≤◌, ◌↔◌, [], length, map, All, IfOk, OnOk};
ghost use Rattle.std.specs.List.{Any};
ghost use Rattle.ring_lemmas.specs.Ring.{IsField};
ghost use Rattle.function_field.specs.Values.{IsPresOver, IsElem, Functions, functions};
ghost use Rattle.ff_falg.specs.Algebras.{IsVector};
ghost use Rattle.ff_falg.specs.Idempotents.{elements_of};
ghost use Rattle.constants_theory.specs.Idempotents.{IsProperIdempotent};
ghost use Rattle.ff_written.specs.LowestTerms.{IsWritten};
ghost use Rattle.ff_rr.specs.Frames.{IsFrame};
ghost use Rattle.ff_rr.specs.Constants.{IsConstantSpace};
ghost use Rattle.ff_rr.specs.Listings.{AreByText, IsPutInto, IsWrittenIdempotent, AreListed, function_at};

use crate::frame::Frame;
use crate::spaces::{SpaceBasis, constants};
use crate::sums::combination;
use crate::tables::structure;
use ff_algebra::elem::{Elem, Pres};
use ff_fields::field::SmallField;
use ff_structure::all_idempotents;
use ff_text::Written;
use ff_text::printed::elem_text;
use ff_written::{in_lowest_terms, is_before_text};
use std::alloc::{AllocError, Global};

/// Puts a written function before the first one whose text its own comes before.
fn put(alloc: Global, list: &mut Vec<Written>, z: Written) -> Result<(), AllocError>
    ensures { OnOk result (IsPutInto list.old.items z list.new.items) }
{
    let text = elem_text(alloc, z.num(), z.den())?;
    for i in 0..list.len() {
        let other = elem_text(alloc, list[i].num(), list[i].den())?;
        if is_before_text(text.as_slice(), other.as_slice()) {
            list.insert(i, z)?;
            return Ok(());
        }
    }
    list.push(z)?;
    Ok(())
}

/// The functions with these coordinates as they are written, by their texts.
fn listed<K: SmallField>(
    alloc: Global,
    k: &K,
    p: &Pres,
    functions: &[Elem],
    vectors: &[Vec<u32>],
) -> Result<Vec<Written>, AllocError>
    requires p_in { IsPresOver (K.field k.now).ops p.now }
    requires positive { 1 ≤ p.now.n }
    requires elements { All (IsElem (K.field k.now).ops p.now.n) functions.now }
    requires vectors { All (IsVector (K.field k.now).ops (length functions.now)) (elements_of vectors.now) }
    ensures { let k = K.field k.now in
        IfOk result (λ zs. AreListed k p.now (map (function_at k p.now functions.now) (elements_of vectors.now))
        zs.items) }
{
    let mut list = Vec::new(alloc);
    for codes in vectors {
        let z = combination(alloc, k, p, codes.as_slice(), functions)?;
        let w = in_lowest_terms(alloc, k, p, &z)?;
        put(alloc, &mut list, w)?;
    }
    Ok(list)
}

/// All idempotents of the function field other than 0 and 1 as they are written, by the bytes of their texts, where the
/// constants are given, in which they lie. There is none exactly where it is a field. It takes, for a dimension of m of
/// the constants, m² products of elements with their coordinates, the idempotents of an algebra of m dimensions, and
/// for each that is listed m products of elements and the factors of a denominator.
pub fn idempotents_of<K: SmallField>(
    alloc: Global,
    k: &K,
    f: &Frame,
    constants: &SpaceBasis,
) -> Result<Vec<Written>, AllocError>
    requires frame { IsFrame (K.field k.now) f.now }
    requires constants { IsConstantSpace (K.field k.now) f.now constants.now }
    ensures each { IfOk result (λ zs. All (IsWrittenIdempotent (K.field k.now) f.now.curve.fin) zs.items) }
    ensures all { let k = K.field k.now in
        IfOk result (λ zs. (e : Functions k f.now.curve.fin) → IsProperIdempotent k f.now.curve.fin e
        → Any (IsWritten k f.now.curve.fin e) zs.items) }
    ensures ascending { IfOk result (λ zs. AreByText zs.items) }
    ensures field { IfOk result (λ zs. (zs.items ≡ []) ↔ IsField (functions (K.field k.now) f.now.curve.fin).ops) }
{
    let p = f.curve().fin();
    let algebra = structure(alloc, k, p, constants.space())?;
    let vectors = all_idempotents(alloc, k, &algebra)?;
    listed(alloc, k, p, constants.functions(), vectors.as_slice())
}

/// All idempotents of the function field other than 0 and 1 as they are written, by the bytes of their texts. There is
/// none exactly where it is a field. It takes the time of `constants` and of `idempotents_of`.
pub fn idempotents<K: SmallField>(
    alloc: Global,
    k: &K,
    f: &Frame,
) -> Result<Vec<Written>, AllocError>
    requires { IsFrame (K.field k.now) f.now }
    ensures each { IfOk result (λ zs. All (IsWrittenIdempotent (K.field k.now) f.now.curve.fin) zs.items) }
    ensures all { let k = K.field k.now in
        IfOk result (λ zs. (e : Functions k f.now.curve.fin) → IsProperIdempotent k f.now.curve.fin e
        → Any (IsWritten k f.now.curve.fin e) zs.items) }
    ensures ascending { IfOk result (λ zs. AreByText zs.items) }
    ensures field { IfOk result (λ zs. (zs.items ≡ []) ↔ IsField (functions (K.field k.now) f.now.curve.fin).ops) }
{
    let constants = constants(alloc, k, f)?;
    idempotents_of(alloc, k, f, &constants)
}
