//! The primes that belong to the idempotents of the polynomials modulo a monic one.

ghost use Rattle.std.specs.Prelude.{◌≡◌, ◌-◌, length, All, IfOk};
ghost use Rattle.ff_fields.specs.Code.{raw_ring};
ghost use Rattle.ff_fields.specs.Over.{IsOver};
ghost use Rattle.ring_lemmas.specs.Lists.{neg_list};
ghost use Rattle.ff_falg.specs.Algebras.{IsPrimitiveVector, IsVector};
ghost use Rattle.ff_falg.specs.Idempotents.{elements_of};
ghost use Rattle.ff_factor.specs.Primes.{IsHighPower, IsPrimeAt};
ghost use Rattle.ff_factor.specs.Pulls.{ArePrimesOfIdempotents, ArePrimesOf};
ghost use Rattle.ff_factor.specs.Quotients.{IsModulus, quotient_algebra};

use crate::order::insert;
use crate::quotient::PolyQuotient;
use ff_falg::relations::first_relation;
use ff_falg::{fixed_by, frobenius, idempotents_by, is_field_by};
use ff_fields::field::SmallField;
use ff_poly::Poly;
use ff_poly::powers::pow_mod;
use std::alloc::{AllocError, Global};

/// The class of x to a power of q that is at least the degree of g, where q is the size of the field.
fn high_power<K: SmallField>(alloc: Global, k: &K, g: &Poly) -> Result<Vec<u32>, AllocError>
    requires { IsModulus (K.field k.now).ops g.now }
    ensures vector { IfOk result (λ v. IsVector (K.field k.now).ops (length g.now - 1) v.items) }
    ensures power { IfOk result (λ v. IsHighPower (K.field k.now) g.now (length g.now - 1) v.items) }
{
    let x = Poly::from_codes([0, 1].to_vec(alloc)?);
    let degree = g.codes().len() - 1;
    let mut power = pow_mod(alloc, k, &x, k.size() as u64, g)?;
    let mut reach = k.size() as usize;
    while reach < degree {
        power = pow_mod(alloc, k, &power, k.size() as u64, g)?;
        reach = reach.saturating_mul(k.size() as usize);
    }
    let mut codes = power.codes().to_vec(alloc)?;
    codes.resize(degree, 0)?;
    Ok(codes)
}

/// Takes the negative of each code.
fn negate_all<K: SmallField>(k: &K, codes: &mut [u32])
    requires { IsOver (K.field k.now).ops codes.old }
    ensures { codes.new ≡ neg_list (raw_ring (K.field k.now).ops) codes.old }
{
    for j in 0..codes.len() {
        codes[j] = k.neg(codes[j]);
    }
}

/// The prime of the primitive idempotent e, by the first relation among e, z·e, z·z·e, .. where z is a high power of x.
fn prime_at<K: SmallField>(
    alloc: Global,
    k: &K,
    a: &PolyQuotient,
    z: &[u32],
    e: &[u32],
) -> Result<Poly, AllocError>
    requires modulus { IsModulus (K.field k.now).ops a.now }
    requires vector { IsVector (K.field k.now).ops (length a.now - 1) z.now }
    requires high { IsHighPower (K.field k.now) a.now (length a.now - 1) z.now }
    requires primitive { IsPrimitiveVector (K.field k.now).ops (quotient_algebra a.now) e.now }
    ensures { IfOk result (IsPrimeAt (K.field k.now).ops a.now e.now) }
{
    let bound = a.modulus().codes().len() - 1;
    let relation = first_relation(alloc, k, a, z, e, bound)?;
    let mut codes = relation.coefficients;
    negate_all(k, codes.as_mut_slice());
    codes.push(1)?;
    Ok(Poly::from_codes(codes))
}

/// The primes of primitive idempotents, in ascending order.
fn primes_of<K: SmallField>(
    alloc: Global,
    k: &K,
    a: &PolyQuotient,
    idempotents: &[Vec<u32>],
) -> Result<Vec<Poly>, AllocError>
    requires modulus { IsModulus (K.field k.now).ops a.now }
    requires primitive { All (IsPrimitiveVector (K.field k.now).ops (quotient_algebra a.now))
        (elements_of idempotents.now) }
    ensures { IfOk result (λ v. ArePrimesOf (K.field k.now).ops a.now (elements_of idempotents.now) v.items) }
{
    let z = high_power(alloc, k, a.modulus())?;
    let mut primes = Vec::new(alloc);
    for e in idempotents {
        let p = prime_at(alloc, k, a, z.as_slice(), e.as_slice())?;
        insert(&mut primes, p)?;
    }
    Ok(primes)
}

/// The irreducible divisors of the modulus, in ascending order. Where the polynomials modulo it are a field, it is the
/// only one, and no relation is looked for.
/// Cost: that of `frobenius` and of two kernels; where there is no field, that of `idempotents_by`, and for each
/// divisor p the first relation among at most 2·deg p products.
pub(crate) fn divisors_of<K: SmallField>(
    alloc: Global,
    k: &K,
    a: &PolyQuotient,
) -> Result<Vec<Poly>, AllocError>
    requires { IsModulus (K.field k.now).ops a.now }
    ensures { IfOk result (λ v. ArePrimesOfIdempotents (K.field k.now).ops a.now v.items) }
{
    let map = frobenius(alloc, k, a)?;
    let basis = fixed_by(alloc, k, a, &map)?;
    let found = idempotents_by(alloc, k, a, &basis)?;
    if is_field_by(alloc, k, a, &map, &basis)? {
        let mut primes = Vec::new(alloc);
        primes.push(a.modulus().copy(alloc)?)?;
        return Ok(primes);
    }
    primes_of(alloc, k, a, found.as_slice())
}
