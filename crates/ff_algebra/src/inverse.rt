//! Inverses of functions.

ghost use Rattle.std.specs.Prelude.{◌≡◌, ℕ, length, All, IfOk, IfErr};
ghost use Rattle.ring_lemmas.specs.Rows.{row_scale};
ghost use Rattle.ff_fields.specs.Over.{IsOver};
ghost use Rattle.ff_poly.specs.Value.{value};
ghost use Rattle.ff_poly.specs.Polynomials.{polynomials};
ghost use Rattle.function_field.specs.Values.{Functions, IsPresOver, IsElem, IsMonicElem, function_of, functions, row_of_list};
ghost use Rattle.ff_algebra.specs.Inverses.{IfKills};

mod elimination;

use crate::elem::{Elem, Pres};
use crate::inverse::elimination::relation;
use crate::rows::{add_products, zeros};
use ff_fields::field::SmallField;
use ff_poly::Poly;
use std::alloc::{AllocError, Global};

/// Why a function isn't inverted.
#[derive(Debug, Drop)]
pub enum ZeroDivisor {
    /// An element that isn't 0 and whose product with the function is 0.
    Kills(Elem),
    Memory,
}

impl From<AllocError> for ZeroDivisor {
    ghost use Rattle.ff_algebra.specs.declared.inverse.ZeroDivisor.TheVariants.{Memory};

    ghost from_gives = { λ _ e. e ≡ Memory };

    fn from(_: AllocError) -> Self {
        ZeroDivisor::Memory
    }
}

impl ZeroDivisor {
    /// An equal reason, in memory of its own.
    pub fn copy(&self, alloc: Global) -> Result<ZeroDivisor, AllocError>
        ensures { IfOk result (λ e. e ≡ self.now) }
    {
        match self {
            ZeroDivisor::Kills(w) => Ok(ZeroDivisor::Kills(w.copy(alloc)?)),
            ZeroDivisor::Memory => Ok(ZeroDivisor::Memory),
        }
    }
}

/// Each polynomial of the row times d.
fn multiples<K: SmallField>(
    alloc: Global,
    k: &K,
    d: &Poly,
    row: &[Poly],
) -> Result<Vec<Poly>, AllocError>
    requires d_in { IsOver (K.field k.now).ops d.now }
    requires row_in { All (IsOver (K.field k.now).ops) row.now }
    ensures products { let k = K.field k.now in
        let R = (polynomials k).ops in
        IfOk result (λ products.
        (n : ℕ) → row_of_list k n products.items ≡ row_scale R n (value k d.now) (row_of_list k n row.now)) }
    ensures over { IfOk result (λ products. All (IsOver (K.field k.now).ops) products.items) }
    ensures count { IfOk result (λ products. length products.items ≡ length row.now) }
{
    let mut products = zeros(alloc, row.len())?;
    add_products(k, products.as_mut_slice(), 1, d, row)?;
    Ok(products)
}

/// The inverse of a. Where there is none, a is 0 or a divisor of 0, and the error holds an element that isn't 0 and
/// whose product with a is 0. Neither is in lowest terms. Conditions: the presentation and a are over the field, and a
/// has n numerators. Errors: `Kills` only where a has no inverse; `Memory` where memory runs out. It takes the time of
/// about 4·n³ products of polynomials, whose degrees at most double with each of n columns.
pub fn try_inverse<K: SmallField>(
    alloc: Global,
    k: &K,
    p: &Pres,
    a: &Elem,
) -> Result<Elem, ZeroDivisor>
    requires p_in { IsPresOver (K.field k.now).ops p.now }
    requires a_in { IsElem (K.field k.now).ops p.now.n a.now }
    ensures inverse { let k = K.field k.now in
        IfOk result (λ z.
        (functions k p.now).◌⊗◌ (function_of k p.now a.now) (function_of k p.now z) ≡ (functions k p.now).𝟙) }
    ensures kills { let k = K.field k.now in
        IfErr result (λ e. IfKills e (λ w.
        (functions k p.now).◌⊗◌ (function_of k p.now a.now) (function_of k p.now w) ≡ (functions k p.now).𝟘)) }
    ensures not_zero { let k = K.field k.now in
        IfErr result (λ e. IfKills e (λ w. ¬ (function_of k p.now w ≡ (functions k p.now).𝟘))) }
    ensures no_inverse { let k = K.field k.now in
        IfErr result (λ e. IfKills e (λ _.
        (z : Functions k p.now) → ¬ ((functions k p.now).◌⊗◌ (function_of k p.now a.now) z ≡ (functions k p.now).𝟙))) }
    ensures in_range { IfOk result (IsElem (K.field k.now).ops p.now.n) }
    ensures monic { IfOk result IsMonicElem }
    ensures killer_in_range { IfErr result (λ e. IfKills e (IsElem (K.field k.now).ops p.now.n)) }
    ensures killer_monic { IfErr result (λ e. IfKills e IsMonicElem) }
{
    let den = a.den();
    let (w, d) = relation(alloc, k, p, a.num())?;
    if d.is_zero() {
        let one = Poly::one(alloc)?;
        return Err(ZeroDivisor::Kills(Elem::over_monic(w, one)));
    }
    let num = multiples(alloc, k, den, w.as_slice())?;
    Ok(Elem::new(k, num, d))
}
