//! The spaces of divisors over k, and the constants.

ghost use Rattle.std.specs.Prelude.{◌≡◌, IfOk, length};
ghost use Rattle.function_field.specs.Divisors.{Divisor};
ghost use Rattle.function_field.specs.Values.{Functions};
ghost use Rattle.pair_theory.specs.Pairs.{IsDivisorOfPrimes};
ghost use Rattle.ff_rr.specs.Frames.{IsFrame};
ghost use Rattle.ff_rr.specs.Constants.{IsConstantSpace};
ghost use Rattle.ff_rr.specs.Products.{ArePrimesOfFrame, IsSpaceOfDivisor};

use crate::frame::Frame;
use crate::pairs::ideal_pair;
use ff_algebra::elem::Elem;
use ff_fields::field::SmallField;
use ff_ideal::Prime;
use ff_space::{PrintedBasis, spanned};
use ff_split::{SplitBasis, split};
use std::alloc::{AllocError, Global};
use std::marker::Model;

/// A space of functions over k: its printed basis, and the basis of two lattices that it is read from.
#[derive(Debug, Drop)]
pub struct SpaceBasis {
    split: SplitBasis,
    space: PrintedBasis,
}

impl Model for SpaceBasis {
    ghost use Rattle.ff_rr.specs.Constants.{SpaceBasisValue};

    ghost Value = { SpaceBasisValue };

    ghost view = { λ s. record { split = s.split; space = s.space } };
}

impl SpaceBasis {
    /// The basis of both lattices.
    pub fn split(&self) -> &SplitBasis
        ensures { result.now ≡ self.now.split }
    {
        &self.split
    }

    /// The space by its printed basis.
    pub fn space(&self) -> &PrintedBasis
        ensures { result.now ≡ self.now.space }
    {
        &self.space
    }

    /// The functions of the printed basis, in their order.
    pub fn functions(&self) -> &[Elem]
        ensures { result.now ≡ self.now.space.functions }
    {
        self.space.functions()
    }

    /// An equal basis, in memory of its own.
    pub fn copy(&self, alloc: Global) -> Result<SpaceBasis, AllocError>
        ensures { IfOk result (λ s. s ≡ self.now) }
    {
        let split = self.split.copy(alloc)?;
        let space = self.space.copy(alloc)?;
        Ok(SpaceBasis { split, space })
    }
}

/// The constants of the function field, the roots of monic polynomials over k, which are the functions that are
/// integral on both sides: x^j·b_i with 0 ≤ j ≤ -d_i are a basis of them, for the basis b_i of both orders with the
/// degrees d_i. The field need not be one. It takes the time of `split`, and that of `spanned` for at most n functions.
pub fn constants<K: SmallField>(alloc: Global, k: &K, f: &Frame) -> Result<SpaceBasis, AllocError>
    requires { IsFrame (K.field k.now) f.now }
    ensures { IfOk result (IsConstantSpace (K.field k.now) f.now) }
{
    let curve = f.curve();
    let split = split(alloc, k, curve, f.fin().lattice(), f.inf().lattice())?;
    let space = spanned(alloc, k, curve.fin(), split.basis(), split.degrees())?;
    Ok(SpaceBasis { split, space })
}

/// The space L(D) of the divisor D, the sum of the m·P, which has the functions z with v_P(z) ≥ -D(P) at all places P
/// of both sides: x^j·b_i with 0 ≤ j ≤ -d_i are a basis of it, for the basis b_i of the lattices of D on both sides
/// with the degrees d_i (Hess, section 4). It takes the time of `ideal_pair`, that of `split`, and that of `spanned`
/// for the functions of the basis. An m whose opposite isn't below 2^63 is a want of memory.
pub fn space<K: SmallField>(
    alloc: Global,
    k: &K,
    f: &Frame,
    primes: &[Prime],
    mult: &[i64],
) -> Result<SpaceBasis, AllocError>
    requires frame { IsFrame (K.field k.now) f.now }
    requires primes { ArePrimesOfFrame (K.field k.now) f.now primes.now }
    requires one_each { length primes.now ≡ length mult.now }
    ensures { let k = K.field k.now in
        IfOk result (λ s. (D : Divisor (Functions k f.now.curve.fin))
        → IsDivisorOfPrimes k f.now.curve primes.now mult.now D → IsSpaceOfDivisor k f.now D s) }
{
    let (fin, inf) = ideal_pair(alloc, k, f, primes, mult)?;
    let split = split(alloc, k, f.curve(), &fin, &inf)?;
    let space = spanned(alloc, k, f.curve().fin(), split.basis(), split.degrees())?;
    Ok(SpaceBasis { split, space })
}
