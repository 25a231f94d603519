//! The Popov matrix of a lattice over k[x] in the coordinates of the infinite rows.

ghost use Rattle.std.specs.Prelude.{◌≡◌, IfOk};
ghost use Rattle.ff_fields.specs.Over.{IsOver};
ghost use Rattle.ff_poly.specs.Words.{IsMonicList};
ghost use Rattle.ff_poly.specs.Popov.{rows_of};
ghost use Rattle.function_field.specs.Curves.{IsCurve};
ghost use Rattle.ff_lattice.specs.Lattices.{IsLatticeValue};
ghost use Rattle.split_theory.specs.Splits.{SpanMultiple, IsDenominator};
ghost use Rattle.ff_split.specs.Splits.{IsSplitMatrix};

use crate::rows::combinations;
use crate::turned::coordinates_in_x;
use ff_algebra::curve::Curve;
use ff_fields::field::SmallField;
use ff_lattice::Lattice;
use ff_poly::{Poly, poly};
use ff_popov::popov;
use std::alloc::{AllocError, Global};

/// The denominator of the lattice times x^exponent.
fn denominator<K: SmallField>(
    alloc: Global,
    k: &K,
    l: &Lattice,
    exponent: usize,
) -> Result<Poly, AllocError>
    requires { IsOver (K.field k.now).ops l.now.den }
    ensures { IfOk result (IsDenominator (K.field k.now) l.now.den exponent) }
{
    poly::shift(alloc, l.den(), exponent)
}

/// A monic polynomial u, and rows that span u times the lattice over k[x] in the functions of the infinite rows.
fn multiple<K: SmallField>(
    alloc: Global,
    k: &K,
    c: &Curve,
    fin: &Lattice,
    inf: &Lattice,
) -> Result<(Vec<Vec<Poly>>, Poly), AllocError>
    requires curve { IsCurve (K.field k.now) c.now }
    requires finite { IsLatticeValue (K.field k.now).ops c.now.fin.n fin.now }
    requires infinite { IsLatticeValue (K.field k.now).ops c.now.inf.n inf.now }
    ensures over { IfOk result (λ r. IsOver (K.field k.now).ops r.1) }
    ensures monic { IfOk result (λ r. IsMonicList r.1) }
    ensures spans { IfOk result (λ r. SpanMultiple (K.field k.now) c.now inf.now fin.now r.1 (rows_of r.0.items)) }
{
    let (exponent, coordinates) = coordinates_in_x(alloc, k, c, inf)?;
    let rows = combinations(alloc, k, fin.rows(), &coordinates, fin.len())?;
    let u = denominator(alloc, k, fin, exponent)?;
    Ok((rows, u))
}

/// A monic polynomial u, and the Popov matrix whose rows span u times the lattice over k[x] in the functions of the
/// infinite rows.
pub(crate) fn split_matrix<K: SmallField>(
    alloc: Global,
    k: &K,
    c: &Curve,
    fin: &Lattice,
    inf: &Lattice,
) -> Result<(Vec<Vec<Poly>>, Poly), AllocError>
    requires curve { IsCurve (K.field k.now) c.now }
    requires finite { IsLatticeValue (K.field k.now).ops c.now.fin.n fin.now }
    requires infinite { IsLatticeValue (K.field k.now).ops c.now.inf.n inf.now }
    ensures { IfOk result (λ r. IsSplitMatrix (K.field k.now) c.now fin.now inf.now r.1 (rows_of r.0.items)) }
{
    let (rows, u) = multiple(alloc, k, c, fin, inf)?;
    match popov(alloc, k, rows, fin.len())? {
        Some(basis) => Ok((basis, u)),
        None => unreachable!(),
    }
}
