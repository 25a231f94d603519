//! The basis of a lattice over k[x] and a lattice at infinity.

ghost use Rattle.std.specs.Prelude.{◌≡◌, ℕ, ◌+◌, ◌-◌, ◌*◌, ◌/◌, ◌<◌, ℤ, ◌+ℤ◌, ◌≤ℤ◌, [], length, map, All, IfOk};
ghost use Rattle.std.proofs.Common.{pos};
ghost use Rattle.ff_poly.specs.Popov.{rows_of};
ghost use Rattle.ff_poly.specs.Polynomials.{x_poly};
ghost use Rattle.function_field.specs.Values.{IsElem, function_of, equation_of};
ghost use Rattle.function_field.specs.Curves.{IsCurve};
ghost use Rattle.linear_theory.specs.Lists.{entry};
ghost use Rattle.reduced_basis_theory.specs.Degree.{degree_sum};
ghost use Rattle.infinite_theory.specs.Supported.{IsSupportedAt};
ghost use Rattle.space_theory.specs.Spaces.{IsBasisOfBoth};
ghost use Rattle.ff_lattice.specs.Lattices.{IsLatticeValue, Contains, pivot_degree_of};
ghost use Rattle.split_theory.specs.Splits.{AtInfinity};
ghost use Rattle.ff_split.specs.Splits.{SplitValue, IsLowestElem, IsInOrder, IsSplitMatrix, IsSplitForm};

use crate::basis::elements;
use crate::order::{degrees, ordered};
use crate::products::split_matrix;
use ff_algebra::curve::Curve;
use ff_algebra::elem::Elem;
use ff_fields::field::SmallField;
use ff_lattice::Lattice;
use ff_poly::Poly;
use ff_written::copy_elements;
use std::alloc::{AllocError, Global};
use std::marker::Model;

/// A basis of a lattice over k[x] that is, each function times a power of x, a basis at infinity too. The degrees are
/// the exponents d for which the functions times x^(-d) are the basis at infinity.
#[derive(Debug, Drop)]
pub struct SplitBasis {
    basis: Vec<Elem>,
    degrees: Vec<i64>,
}

impl Model for SplitBasis {
    ghost use Rattle.ff_split.specs.Splits.{SplitValue};

    ghost Value = { SplitValue };

    ghost view = { λ s. record { basis = s.basis.items; degrees = s.degrees.items } };
}

impl SplitBasis {
    /// The functions, as elements in lowest terms where `split` made them.
    pub fn basis(&self) -> &[Elem]
        ensures { result.now ≡ self.now.basis }
    {
        self.basis.as_slice()
    }

    /// The degrees, one for each function.
    pub fn degrees(&self) -> &[i64]
        ensures { result.now ≡ self.now.degrees }
    {
        self.degrees.as_slice()
    }

    /// An equal basis, in memory of its own.
    pub fn copy(&self, alloc: Global) -> Result<SplitBasis, AllocError>
        ensures { IfOk result (λ s. s ≡ self.now) }
    {
        let basis = copy_elements(alloc, self.basis.as_slice())?;
        let degrees = self.degrees.as_slice().to_vec(alloc)?;
        Ok(SplitBasis { basis, degrees })
    }
}

/// The elements at the columns, in their order.
fn arranged(alloc: Global, elems: &[Elem], order: &[(i64, usize)]) -> Result<Vec<Elem>, AllocError>
    requires { All (λ p. p.1 < length elems.now) order.now }
    ensures { IfOk result (λ out. out.items
        ≡ map (λ p. entry (record { num = []; den = [] }) elems.now p.1) order.now) }
{
    let mut out = Vec::new(alloc);
    for p in order {
        out.push(elems[p.1].copy(alloc)?)?;
    }
    Ok(out)
}

/// The functions of the rows of a Popov matrix over u and the degrees of their pivots over u, by these degrees.
fn from_matrix<K: SmallField>(
    alloc: Global,
    k: &K,
    c: &Curve,
    fin: &Lattice,
    inf: &Lattice,
    rows: &[Vec<Poly>],
    u: &Poly,
) -> Result<SplitBasis, AllocError>
    requires curve { IsCurve (K.field k.now) c.now }
    requires infinite { IsLatticeValue (K.field k.now).ops c.now.inf.n inf.now }
    requires matrix { IsSplitMatrix (K.field k.now) c.now fin.now inf.now u.now (rows_of rows.now) }
    ensures form { IfOk result (IsSplitForm (K.field k.now) c.now fin.now inf.now) }
    ensures lowest { IfOk result (λ s. All (IsLowestElem (K.field k.now).ops c.now.fin.n) s.basis) }
{
    let elems = elements(alloc, k, c, inf, rows, u)?;
    let order = ordered(alloc, rows, u)?;
    let basis = arranged(alloc, &elems, &order)?;
    let degrees = degrees(alloc, &order)?;
    Ok(SplitBasis { basis, degrees })
}

/// The basis of a lattice over k[x] and of a lattice over k[t], which differs from k[t][Y] at t alone: the functions of
/// the rows of the Popov basis in the coordinates of the infinite rows, by the degrees of their pivots and then from
/// left to right. A degree that isn't below 2^63 is a want of memory.
pub fn split<K: SmallField>(
    alloc: Global,
    k: &K,
    c: &Curve,
    fin: &Lattice,
    inf: &Lattice,
) -> Result<SplitBasis, AllocError>
    requires curve { IsCurve (K.field k.now) c.now }
    requires finite { IsLatticeValue (K.field k.now).ops c.now.fin.n fin.now }
    requires infinite { IsLatticeValue (K.field k.now).ops c.now.inf.n inf.now }
    requires tame { let k = K.field k.now in
        IsSupportedAt (equation_of k c.now.inf) (x_poly k) (Contains k c.now.inf inf.now) }
    ensures both { let k = K.field k.now in
        IfOk result (λ s. IsBasisOfBoth (equation_of k c.now.fin) (Contains k c.now.fin fin.now)
        (AtInfinity k c.now inf.now) (map (function_of k c.now.fin) s.basis) s.degrees) }
    ensures form { IfOk result (IsSplitForm (K.field k.now) c.now fin.now inf.now) }
    ensures elements { IfOk result (λ s. All (IsElem (K.field k.now).ops c.now.fin.n) s.basis) }
    ensures lowest { IfOk result (λ s. All (IsLowestElem (K.field k.now).ops c.now.fin.n) s.basis) }
    ensures ascending { IfOk result (λ s. IsInOrder ◌≤ℤ◌ s.degrees) }
    ensures sum { IfOk result (λ s. degree_sum c.now.fin.n (entry (pos 0) s.degrees)
        ≡ (pivot_degree_of fin.now +ℤ pivot_degree_of inf.now)
        +ℤ pos (c.now.c * (c.now.fin.n * (c.now.fin.n - 1)) / 2)) }
{
    let (rows, u) = split_matrix(alloc, k, c, fin, inf)?;
    from_matrix(alloc, k, c, fin, inf, &rows, &u)
}
