//! Factors of polynomials.

ghost use Rattle.std.specs.Prelude.{◌≡◌, ◌≢◌, ◌≤◌, ℕ, List, [], length, IfOk};
ghost use Rattle.ff_fields.specs.Over.{IsOver};
ghost use Rattle.ff_poly.specs.Words.{IsPoly};
ghost use Rattle.ff_factor.specs.Factors.{FactorsValue, IsFactorisation, polys_of};
ghost use Rattle.ff_factor.specs.Pulls.{IsPrimeList, IsPulledOut, IsSplitOff};

use crate::primes::divisors_of;
use crate::quotient::PolyQuotient;
use ff_fields::field::SmallField;
use ff_poly::Poly;
use ff_poly::poly::{divide, scale};
use std::alloc::{AllocError, Global};
use std::marker::Model;

/// A code that isn't 0, and different irreducible polynomials in their order, each with an exponent of 1 or more.
#[derive(Debug, Drop)]
pub struct Factors {
    unit: u32,
    parts: Vec<(Poly, u32)>,
}

impl Model for Factors {
    ghost use Rattle.ff_factor.specs.Factors.{FactorsValue};

    ghost Value = { FactorsValue };

    ghost view = { λ f. record { unit = f.unit; parts = f.parts.items } };
}

impl Factors {
    /// The code. No memory is taken.
    pub fn unit(&self) -> u32
        ensures { result ≡ self.now.unit }
    {
        self.unit
    }

    /// The polynomials with their exponents. No memory is taken.
    pub fn parts(&self) -> &[(Poly, u32)]
        ensures { result.now ≡ self.now.parts }
    {
        self.parts.as_slice()
    }

    /// Copies of the polynomials without their exponents.
    pub fn polys(&self, alloc: Global) -> Result<Vec<Poly>, AllocError>
        ensures { IfOk result (λ v. v.items ≡ polys_of self.now.parts) }
    {
        let mut polys = Vec::new(alloc);
        for part in &self.parts {
            polys.push(part.0.copy(alloc)?)?;
        }
        Ok(polys)
    }

    /// Equal factors, in memory of their own.
    pub fn copy(&self, alloc: Global) -> Result<Factors, AllocError>
        ensures { IfOk result (λ c. c ≡ self.now) }
    {
        let mut parts = Vec::new(alloc);
        for part in &self.parts {
            parts.push((part.0.copy(alloc)?, part.1))?;
        }
        Ok(Factors {
            unit: self.unit,
            parts,
        })
    }
}

/// Divides g by p as often as it goes: how often, and what is left. A multiplicity of 2^32 or more, which only a
/// polynomial of more than 2^32 codes has, is want of memory.
fn pull_out<K: SmallField>(
    alloc: Global,
    k: &K,
    g: &Poly,
    p: &Poly,
) -> Result<(u32, Poly), AllocError>
    requires g_in { IsOver (K.field k.now).ops g.now }
    requires g_poly { IsPoly g.now }
    requires g_some { g.now ≢ [] }
    requires p_in { IsOver (K.field k.now).ops p.now }
    requires p_poly { IsPoly p.now }
    requires not_constant { 2 ≤ length p.now }
    ensures { IfOk result (λ r. IsPulledOut (K.field k.now) g.now p.now r.0 r.1) }
{
    let mut rest = g.copy(alloc)?;
    let mut count: u32 = 0;
    'pull: loop {
        let (quotient, left) = divide(alloc, k, &rest, p)?;
        if !left.is_zero() {
            return Ok((count, rest));
        }
        if count == u32::MAX {
            return Err(AllocError);
        }
        rest = quotient;
        count += 1;
    }
}

/// Divides g by each of the primes as often as it goes: the primes with how often, and what is left.
fn split_off<K: SmallField>(
    alloc: Global,
    k: &K,
    g: &Poly,
    primes: &[Poly],
) -> Result<(Vec<(Poly, u32)>, Poly), AllocError>
    requires g_in { IsOver (K.field k.now).ops g.now }
    requires g_poly { IsPoly g.now }
    requires g_some { g.now ≢ [] }
    requires primes { IsPrimeList (K.field k.now) g.now primes.now }
    ensures { IfOk result (λ r. IsSplitOff (K.field k.now) g.now primes.now r.0.items r.1) }
{
    let mut rest = g.copy(alloc)?;
    let mut parts = Vec::new(alloc);
    for p in primes {
        let (count, left) = pull_out(alloc, k, &rest, p)?;
        parts.push((p.copy(alloc)?, count))?;
        rest = left;
    }
    Ok((parts, rest))
}

/// The factors of g, which isn't 0: their unit times the product of the powers of their polynomials is g. A
/// multiplicity of 2^32 or more, which only a polynomial of more than 2^32 codes has, is want of memory.
/// Cost: that of `idempotents` for the polynomials modulo g, a kernel where there is one, and as many divisions as
/// there are factors; where g isn't a code times an irreducible polynomial, for each irreducible factor p the first
/// relation among at most 2·deg p products.
pub fn factor<K: SmallField>(alloc: Global, k: &K, g: &Poly) -> Result<Factors, AllocError>
    requires over { IsOver (K.field k.now).ops g.now }
    requires not_zero { g.now ≢ [] }
    ensures { IfOk result (IsFactorisation (K.field k.now).ops g.now) }
{
    if g.codes().len() == 1 {
        return Ok(Factors {
            unit: g.top(),
            parts: Vec::new(alloc),
        });
    }
    let monic = scale(alloc, k, g, k.inv(g.top()))?;
    let a = PolyQuotient::new(alloc, &monic)?;
    let primes = divisors_of(alloc, k, &a)?;
    let (parts, rest) = split_off(alloc, k, g, primes.as_slice())?;
    Ok(Factors {
        unit: rest.top(),
        parts,
    })
}

/// A law: a polynomial has one factorisation.
pub fn one_factorisation<K: SmallField>(k: &K)
    ensures { let ops = (K.field k.now).ops in
        (g : List ℕ) (a b : FactorsValue) → IsFactorisation ops g a → IsFactorisation ops g b → a ≡ b }
{}
