//! The discriminant of a presentation: the determinant of the traces of y^(i+j).

ghost use Rattle.std.specs.Prelude.{◌≡◌, ℕ, ◌+◌, ◌-◌, ◌*◌, ◌<◌, ◌≤◌, [], length, get_or, All, IfOk};
ghost use Rattle.ring_theory.specs.Determinant.{determinant};
ghost use Rattle.ff_fields.specs.Over.{IsOver};
ghost use Rattle.ff_poly.specs.Words.{IsPoly};
ghost use Rattle.ff_poly.specs.Value.{value};
ghost use Rattle.ff_poly.specs.Polynomials.{polynomials};
ghost use Rattle.function_field.specs.Values.{IsPresOver, equation_of};
ghost use Rattle.function_field.specs.Discriminant.{power_trace};
ghost use Rattle.function_field.specs.Curves.{IsDiscriminant};
ghost use Rattle.ff_algebra.specs.CurveTerms.{matrix_of};

use crate::elem::Pres;
use crate::rows::{multiply_by_y, row_trace, zeros};
use ff_fields::field::SmallField;
use ff_poly::Poly;
use std::alloc::{AllocError, Global};

/// The traces of y^m, for m from 0 to 2·n - 2.
fn power_traces<K: SmallField>(alloc: Global, k: &K, p: &Pres) -> Result<Vec<Poly>, AllocError>
    requires { IsPresOver (K.field k.now).ops p.now }
    ensures count { IfOk result (λ ts. length ts.items + 1 ≡ 2 * p.now.n) }
    ensures traces { let k = K.field k.now in
        IfOk result (λ ts. (m : ℕ) → m < length ts.items →
        value k (get_or ts.items m []) ≡ power_trace (equation_of k p.now) m) }
    ensures over { IfOk result (λ ts. All (IsOver (K.field k.now).ops) ts.items) }
{
    let mut power = zeros(alloc, p.n() - 1)?;
    power.insert(0, Poly::one(alloc)?)?;
    let mut traces = Vec::new(alloc);
    for _ in 0..2 * p.n() - 1 {
        traces.push(row_trace(alloc, k, p, power.as_slice())?)?;
        multiply_by_y(alloc, k, p, &mut power)?;
    }
    Ok(traces)
}

/// The determinant of the square matrix whose row i has the entries of the list from position rows\[i\] + column on, by
/// expansion along the first column. It takes less than 3·m! products of polynomials, for m rows.
fn determinant<K: SmallField>(
    alloc: Global,
    k: &K,
    entries: &[Poly],
    rows: &[usize],
    column: usize,
) -> Result<Poly, AllocError>
    requires entries_in { All (IsOver (K.field k.now).ops) entries.now }
    requires inside { All (λ r. r + column + length rows.now ≤ length entries.now) rows.now }
    ensures value { let k = K.field k.now in
        IfOk result (λ d. value k d ≡
        determinant (polynomials k).ops (length rows.now) (matrix_of k entries.now rows.now column)) }
    ensures over { IfOk result (IsOver (K.field k.now).ops) }
    ensures poly { IfOk result IsPoly }
{
    if rows.is_empty() {
        return Poly::one(alloc);
    }
    let mut sum = Poly::zero(alloc);
    let mut sign = 1;
    for i in 0..rows.len() {
        let mut others = rows.to_vec(alloc)?;
        let row = others.remove(i);
        let minor = determinant(alloc, k, entries, others.as_slice(), column + 1)?;
        sum.add_product(k, sign, &entries[row + column], &minor)?;
        sign = k.neg(sign);
    }
    Ok(sum)
}

/// The discriminant of the presentation.
pub(crate) fn discriminant<K: SmallField>(
    alloc: Global,
    k: &K,
    p: &Pres,
) -> Result<Poly, AllocError>
    requires { IsPresOver (K.field k.now).ops p.now }
    ensures { IfOk result (IsDiscriminant (K.field k.now) p.now) }
{
    let traces = power_traces(alloc, k, p)?;
    let rows = [0, 1, 2, 3];
    determinant(alloc, k, traces.as_slice(), &rows[..p.n()], 0)
}
