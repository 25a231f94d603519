//! Membership in the combinations of a lattice's rows over R_inf, the fractions of degree at most 0.

ghost use Rattle.std.specs.Prelude.{◌≡◌, ◌≢◌, ℕ, ◌<◌, ◌↔◌, length, slice_index, IfOk, IsTrue};
ghost use Rattle.ff_poly.specs.Polynomials.{x_poly};
ghost use Rattle.function_field.specs.Values.{IsElem, equation_of, function_of};
ghost use Rattle.function_field.specs.Curves.{IsCurve};
ghost use Rattle.function_field.specs.InfiniteSpans.{InInfiniteSpan};
ghost use Rattle.infinite_theory.specs.Supported.{IsSupportedAt};
ghost use Rattle.ff_lattice.specs.Lattices.{IsLatticeValue, Contains, row_elems};
ghost use Rattle.ff_infinite.specs.Steps.{IsFreed};

use ff_algebra::{Curve, Elem, to_inf};
use ff_fields::field::SmallField;
use ff_lattice::Lattice;
use ff_lattice::sets::contains;
use ff_poly::Poly;
use ff_poly::poly::shift;
use std::alloc::{AllocError, Global};

/// Is z, an element of the finite presentation, a combination over R_inf of the rows of an infinite lattice? The
/// lattice is k[t][Y] up to powers of t: one of them takes 1, Y, up to Y^(n-1) into it, and it into k[t][Y]. So each
/// denominator may be brought to a power of t, since what t doesn't divide has an inverse in R_inf. It takes the time
/// of `to_inf` and of `contains`.
pub fn local_contains<K: SmallField>(
    alloc: Global,
    k: &K,
    c: &Curve,
    l: &Lattice,
    z: &Elem,
) -> Result<bool, AllocError>
    requires curve { IsCurve (K.field k.now) c.now }
    requires l_form { IsLatticeValue (K.field k.now).ops c.now.inf.n l.now }
    requires tame { let k = K.field k.now in
        IsSupportedAt (equation_of k c.now.inf) (x_poly k) (Contains k c.now.inf l.now) }
    requires z_in { IsElem (K.field k.now).ops c.now.fin.n z.now }
    ensures { let k = K.field k.now in
        IfOk result (λ r.
        IsTrue r ↔ InInfiniteSpan k c.now.fin c.now.c (row_elems l.now) (function_of k c.now.fin z.now)) }
{
    let w = to_inf(alloc, k, c, z)?;
    let freed = over_power(alloc, k, &w)?;
    contains(alloc, k, l, &freed)
}

/// The numerators over the power of the variable that divides the denominator, without the rest of the denominator.
fn over_power<K: SmallField>(alloc: Global, k: &K, w: &Elem) -> Result<Elem, AllocError>
    requires { IsElem (K.field k.now).ops (length w.now.num) w.now }
    ensures freed { IfOk result (IsFreed (K.field k.now) w.now) }
    ensures in_range { IfOk result (IsElem (K.field k.now).ops (length w.now.num)) }
{
    let mut num = Vec::new(alloc);
    for entry in w.num() {
        num.push(entry.copy(alloc)?)?;
    }
    let den = shift(alloc, &Poly::one(alloc)?, low_zeros(w.den()))?;
    Ok(Elem::new(k, num, den))
}

/// How many codes, from the lowest on, are 0.
fn low_zeros(d: &Poly) -> usize
    ensures zeros { (j : ℕ) → j < result → slice_index d.now j ≡ 0 }
    ensures next { result < length d.now → slice_index d.now result ≢ 0 }
{
    let codes = d.codes();
    for (i, code) in codes.iter().enumerate() {
        if *code != 0 {
            return i;
        }
    }
    codes.len()
}
