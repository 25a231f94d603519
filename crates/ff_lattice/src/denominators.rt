//! Exact quotients of rows by a common divisor.

ghost use Rattle.std.specs.Prelude.{◌≡◌, ◌≢◌, [], All, IfOk};
ghost use Rattle.ff_fields.specs.Over.{IsOver};
ghost use Rattle.ff_poly.specs.Words.{IsPoly, DividesList, product_of};
ghost use Rattle.ff_poly.specs.Popov.{rows_of, IsRow};
ghost use Rattle.ff_lattice.specs.Steps.{IsRowQuotient, IsQuotientOfRows};

use ff_fields::field::SmallField;
use ff_poly::{Poly, poly};
use std::alloc::{AllocError, Global};

/// The quotient of a by b, which divides it.
pub(crate) fn exact_quotient<K: SmallField>(
    alloc: Global,
    k: &K,
    a: &Poly,
    b: &Poly,
) -> Result<Poly, AllocError>
    requires a_in { IsOver (K.field k.now).ops a.now }
    requires a_poly { IsPoly a.now }
    requires b_in { IsOver (K.field k.now).ops b.now }
    requires b_poly { IsPoly b.now }
    requires b_some { b.now ≢ [] }
    requires divides { DividesList (K.field k.now).ops b.now a.now }
    ensures product { IfOk result (λ q. a.now ≡ product_of (K.field k.now).ops b.now q) }
    ensures over { IfOk result (IsOver (K.field k.now).ops) }
    ensures poly { IfOk result IsPoly }
{
    let (quotient, _) = poly::divide(alloc, k, a, b)?;
    Ok(quotient)
}

/// The quotients of the entries by g, which divides them.
pub(crate) fn row_quotient<K: SmallField>(
    alloc: Global,
    k: &K,
    g: &Poly,
    row: &[Poly],
) -> Result<Vec<Poly>, AllocError>
    requires g_in { IsOver (K.field k.now).ops g.now }
    requires g_poly { IsPoly g.now }
    requires g_some { g.now ≢ [] }
    requires row_in { All (IsOver (K.field k.now).ops) row.now }
    requires row_poly { All IsPoly row.now }
    requires divides { All (DividesList (K.field k.now).ops g.now) row.now }
    ensures { IfOk result (λ q. IsRowQuotient (K.field k.now).ops g.now row.now q.items) }
{
    let mut quotients = Vec::new(alloc);
    for v in row {
        quotients.push(exact_quotient(alloc, k, v, g)?)?;
    }
    Ok(quotients)
}

/// The quotients of the entries of the rows by g, which divides them.
pub(crate) fn quotient_rows<K: SmallField>(
    alloc: Global,
    k: &K,
    g: &Poly,
    rows: &[Vec<Poly>],
    n: usize,
) -> Result<Vec<Vec<Poly>>, AllocError>
    requires g_in { IsOver (K.field k.now).ops g.now }
    requires g_poly { IsPoly g.now }
    requires g_some { g.now ≢ [] }
    requires rows_in { All (IsRow (K.field k.now).ops n) (rows_of rows.now) }
    requires rows_poly { All (All IsPoly) (rows_of rows.now) }
    requires divides { All (All (DividesList (K.field k.now).ops g.now)) (rows_of rows.now) }
    ensures { IfOk result (λ q. IsQuotientOfRows (K.field k.now).ops g.now n (rows_of rows.now) (rows_of q.items)) }
{
    let mut quotients = Vec::new(alloc);
    for row in rows {
        quotients.push(row_quotient(alloc, k, g, row)?)?;
    }
    Ok(quotients)
}
