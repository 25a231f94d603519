//! The lattices of a divisor on both sides (Hess, section 2).

ghost use Rattle.std.specs.Prelude.{◌≡◌, ◌⊎◌, neg_ℤ, FitsSigned, IsTrue, IfOk, length};
ghost use Rattle.std.specs.Int.{w64};
ghost use Rattle.std.proofs.Common.{pos};
ghost use Rattle.function_field.specs.declared.side.Side.TheVariants.{Finite, Infinite};
ghost use Rattle.ff_lattice.specs.Lattices.{IsLatticeValue};
ghost use Rattle.value_theory.specs.IntegralLattices.{presentation};
ghost use Rattle.pair_theory.specs.Pairs.{IsSidePrime, IsPowerLattice};
ghost use Rattle.ff_rr.specs.Frames.{IsFrame, order_on};
ghost use Rattle.ff_rr.specs.Products.{IsWithPrime, IsProductOfPowers, ArePrimesOfFrame, IsLatticeOfPrimes};

use crate::frame::Frame;
use ff_algebra::Side;
use ff_fields::field::SmallField;
use ff_ideal::{Prime, power};
use ff_lattice::{Lattice, product};
use std::alloc::{AllocError, Global};

/// Is the prime one of the side, with an integer that isn't 0?
fn counts(prime: &Prime, side: Side, m: i64) -> bool
    ensures true_case { IsTrue result → (prime.now.side ≡ side) × ¬ (m ≡ pos 0) }
    ensures false_case { ¬ IsTrue result → ¬ (prime.now.side ≡ side) ⊎ (m ≡ pos 0) }
{
    prime.side() == side && m != 0
}

/// -m; one that isn't below 2^63 is a want of memory.
fn opposite(m: i64) -> Result<i64, AllocError>
    ensures is { IfOk result (λ e. e ≡ neg_ℤ m) }
    ensures in_range { IfOk result (FitsSigned w64) }
{
    m.checked_neg().ok_or(AllocError)
}

/// P^(-m) for a prime P of the side.
fn prime_power<K: SmallField>(
    alloc: Global,
    k: &K,
    f: &Frame,
    side: Side,
    prime: &Prime,
    m: i64,
) -> Result<Lattice, AllocError>
    requires frame { IsFrame (K.field k.now) f.now }
    requires prime { IsSidePrime (K.field k.now) f.now.curve side (order_on f.now side) prime.now }
    ensures { IfOk result (IsPowerLattice (K.field k.now) (presentation f.now.curve side) (order_on f.now side)
        prime.now m) }
{
    let p = f.presentation(side);
    let o = f.order(side);
    if m > 0 {
        return power(alloc, k, p, o, prime.inverse(), m);
    }
    power(alloc, k, p, o, prime.rows(), opposite(m)?)
}

/// The lattice of a side times P^(-m) where P is a prime of the side and m isn't 0, and the lattice itself else.
fn with_prime<K: SmallField>(
    alloc: Global,
    k: &K,
    f: &Frame,
    side: Side,
    l: Lattice,
    prime: &Prime,
    m: i64,
) -> Result<Lattice, AllocError>
    requires frame { IsFrame (K.field k.now) f.now }
    requires form { IsLatticeValue (K.field k.now).ops (presentation f.now.curve side).n l }
    requires prime { IsSidePrime (K.field k.now) f.now.curve prime.now.side (order_on f.now prime.now.side) prime.now }
    ensures form { IfOk result (IsLatticeValue (K.field k.now).ops (presentation f.now.curve side).n) }
    ensures is { IfOk result (IsWithPrime (K.field k.now) (presentation f.now.curve side) (order_on f.now side) side
        prime.now m l) }
{
    if counts(prime, side, m) {
        let j = prime_power(alloc, k, f, side, prime, m)?;
        return product(alloc, k, f.presentation(side), &l, &j);
    }
    Ok(l)
}

/// The product of the order of a side and the powers P^(-m) of the primes of the side.
fn lattice_on<K: SmallField>(
    alloc: Global,
    k: &K,
    f: &Frame,
    side: Side,
    primes: &[Prime],
    mult: &[i64],
) -> Result<Lattice, AllocError>
    requires frame { IsFrame (K.field k.now) f.now }
    requires primes { ArePrimesOfFrame (K.field k.now) f.now primes.now }
    requires one_each { length primes.now ≡ length mult.now }
    ensures { IfOk result (IsLatticeOfPrimes (K.field k.now) f.now side primes.now mult.now) }
{
    let mut l = f.order(side).lattice().copy(alloc)?;
    for i in 0..primes.len() {
        let m = mult[i];
        l = with_prime(alloc, k, f, side, l, &primes[i], m)?;
    }
    Ok(l)
}

/// The lattices of the divisor D, the sum of the m·P, on the finite and on the infinite side: the products of the
/// P^(-m) there. Their combinations over the ring of the side are the functions z with v_P(z) ≥ -D(P) at its places.
/// It takes, for each m that isn't 0, the time of `power` and of a product of lattices. An m whose opposite isn't
/// below 2^63 is a want of memory.
pub fn ideal_pair<K: SmallField>(
    alloc: Global,
    k: &K,
    f: &Frame,
    primes: &[Prime],
    mult: &[i64],
) -> Result<(Lattice, Lattice), AllocError>
    requires frame { IsFrame (K.field k.now) f.now }
    requires primes { ArePrimesOfFrame (K.field k.now) f.now primes.now }
    requires one_each { length primes.now ≡ length mult.now }
    ensures finite { IfOk result (λ r. IsLatticeOfPrimes (K.field k.now) f.now Finite primes.now mult.now r.0) }
    ensures infinite { IfOk result (λ r. IsLatticeOfPrimes (K.field k.now) f.now Infinite primes.now mult.now r.1) }
{
    let fin = lattice_on(alloc, k, f, Side::Finite, primes, mult)?;
    let inf = lattice_on(alloc, k, f, Side::Infinite, primes, mult)?;
    Ok((fin, inf))
}
