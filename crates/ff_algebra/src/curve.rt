//! Curves: the equation of terms in x and y, its discriminant, and its presentation at infinity.

ghost use Rattle.std.specs.Prelude.{◌≡◌, ◌≢◌, ◌<◌, All, IfOk, IfErr};
ghost use Rattle.function_field.specs.Curves.{CurveValue};
ghost use Rattle.ff_algebra.specs.CurveTerms.{IsCurveOf, IsCurveFault};
ghost use Rattle.ff_algebra.specs.declared.curve.CurveFault.{CurveFault};

mod discriminant;
mod equation;
pub(crate) mod infinity;

use crate::elem::Pres;
use discriminant::discriminant;
use equation::equation;
use ff_fields::field::SmallField;
use ff_poly::{Poly, Terms};
use infinity::{infinite_presentation, infinity_number};
use std::alloc::{AllocError, Global};
use std::marker::Model;

/// The greatest degree of a discriminant.
const MAX_DISC: usize = 64;

/// The greatest c·n·(n-1): the degree that the discriminant of the infinite presentation may have.
const MAX_INF: usize = 224;

/// A curve f = 0 of degree n in y, from 2 to 4, with the function field F = k(x)[y]/(f): f is monic in y and separable.
#[derive(Debug, Drop)]
pub struct Curve {
    fin: Pres,
    inf: Pres,
    c: u32,
    disc: Poly,
}

impl Model for Curve {
    ghost use Rattle.function_field.specs.Curves.{CurveValue};

    ghost Value = { CurveValue };

    ghost view = { λ c. record { fin = c.fin; inf = c.inf; c = c.c; disc = c.disc } };
}

/// What keeps terms from giving a curve.
#[derive(Debug, Drop)]
pub enum CurveFault {
    /// The degree in y, which isn't from 2 to 4. That of 0 counts as 0.
    LimitY(u64),
    /// The greatest degree in x, which is above 32.
    LimitX(u64),
    /// The coefficient of the highest power of y, which isn't 1.
    NotMonic(Poly),
    /// The discriminant is 0.
    NotSeparable,
    /// The degree of the discriminant, which is above 64.
    LimitDisc(usize),
    /// c·n·(n-1), which is above 224, for the infinity number c and the degree n in y.
    LimitInf(u32),
    /// Memory ran out.
    Memory,
}

impl From<AllocError> for CurveFault {
    ghost use Rattle.ff_algebra.specs.declared.curve.CurveFault.TheVariants.{Memory};

    ghost from_gives = { λ _ e. e ≡ Memory };

    fn from(_: AllocError) -> Self {
        CurveFault::Memory
    }
}

impl CurveFault {
    /// An equal fault, in memory of its own.
    pub fn copy(&self, alloc: Global) -> Result<CurveFault, AllocError>
        ensures { IfOk result (λ e. e ≡ self.now) }
    {
        match self {
            CurveFault::LimitY(n) => Ok(CurveFault::LimitY(*n)),
            CurveFault::LimitX(d) => Ok(CurveFault::LimitX(*d)),
            CurveFault::NotMonic(top) => Ok(CurveFault::NotMonic(top.copy(alloc)?)),
            CurveFault::NotSeparable => Ok(CurveFault::NotSeparable),
            CurveFault::LimitDisc(d) => Ok(CurveFault::LimitDisc(*d)),
            CurveFault::LimitInf(d) => Ok(CurveFault::LimitInf(*d)),
            CurveFault::Memory => Ok(CurveFault::Memory),
        }
    }
}

impl Curve {
    /// The curve of the terms, or the first fault in the order of `CurveFault`. Its infinite presentation is by
    /// Y = y/x^c over the polynomials in t = 1/x, for the least c that makes its coefficients polynomials. It takes
    /// the time of at most some 200 products of polynomials, whose degrees are at most those of the traces of y^6.
    pub fn new<K: SmallField>(alloc: Global, k: &K, f: &Terms) -> Result<Curve, CurveFault>
        requires { All (λ t. t.2 < (K.field k.now).size) f.now }
        ensures ok { IfOk result (IsCurveOf (K.field k.now) f.now) }
        ensures fault { IfErr result (IsCurveFault (K.field k.now) f.now) }
    {
        let fin = equation(alloc, k, f)?;
        let disc = discriminant(alloc, k, &fin)?;
        let Some(degree) = disc.degree() else {
            return Err(CurveFault::NotSeparable);
        };
        if degree > MAX_DISC {
            return Err(CurveFault::LimitDisc(degree));
        }
        let c = infinity_number(&fin);
        let inf_degree = c * fin.n() * (fin.n() - 1);
        if inf_degree > MAX_INF {
            return Err(CurveFault::LimitInf(inf_degree as u32));
        }
        let inf = infinite_presentation(alloc, &fin, c)?;
        Ok(Curve {
            fin,
            inf,
            c: c as u32,
            disc,
        })
    }

    /// The finite presentation, by f over the polynomials in x.
    pub fn fin(&self) -> &Pres
        ensures { result.now ≡ self.now.fin }
    {
        &self.fin
    }

    /// The infinite presentation, by the polynomial of Y = y/x^c over the polynomials in t = 1/x.
    pub fn inf(&self) -> &Pres
        ensures { result.now ≡ self.now.inf }
    {
        &self.inf
    }

    /// The infinity number: the least c, 0 or more, with degrees of at most c·i at y^(n-i).
    pub fn c(&self) -> u32
        ensures { result ≡ self.now.c }
    {
        self.c
    }

    /// The discriminant of f, which isn't 0.
    pub fn disc(&self) -> &Poly
        ensures { result.now ≡ self.now.disc }
    {
        &self.disc
    }

    /// An equal curve, in memory of its own.
    pub fn copy(&self, alloc: Global) -> Result<Curve, AllocError>
        ensures { IfOk result (λ c. c ≡ self.now) }
    {
        let fin = self.fin.copy(alloc)?;
        let inf = self.inf.copy(alloc)?;
        let disc = self.disc.copy(alloc)?;
        Ok(Curve {
            fin,
            inf,
            c: self.c,
            disc,
        })
    }
}

/// The faults exclude each other and the curve: terms give one fault at most but for want of memory, and none where
/// they give a curve, which is the only one.
pub fn one_fault<K: SmallField>(k: &K, f: &Terms)
    ensures fault { let k = K.field k.now in
        (e d : CurveFault) → e ≢ CurveFault.Memory → d ≢ CurveFault.Memory →
        IsCurveFault k f.now e → IsCurveFault k f.now d → e ≡ d }
    ensures no_curve { let k = K.field k.now in
        (e : CurveFault) (c : CurveValue) → e ≢ CurveFault.Memory →
        IsCurveFault k f.now e → ¬ IsCurveOf k f.now c }
    ensures curve { let k = K.field k.now in
        (c d : CurveValue) → IsCurveOf k f.now c → IsCurveOf k f.now d → c ≡ d }
{}
