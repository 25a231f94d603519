//! An element as it is printed.

ghost use Rattle.std.specs.Prelude.{◌≡◌, IfOk};
ghost use Rattle.ff_text.specs.Printed.{WrittenValue};

use ff_poly::Poly;
use std::alloc::{AllocError, Global};
use std::marker::Model;

/// An element as it is printed: its numerators at 1, y, and so on, over its denominator.
#[derive(Debug, Drop)]
pub struct Written {
    num: Vec<Poly>,
    den: Poly,
}

impl Model for Written {
    ghost use Rattle.ff_text.specs.Printed.{WrittenValue};

    ghost Value = { WrittenValue };

    ghost view = { λ z. record { num = z.num.items; den = z.den } };
}

impl Written {
    /// The numerators over the denominator. No memory is taken.
    pub fn new(num: Vec<Poly>, den: Poly) -> Written
        ensures { result ≡ record { num = num.items; den = den } }
    {
        Written { num, den }
    }

    /// The numerators at 1, y, and so on. No memory is taken.
    pub fn num(&self) -> &[Poly]
        ensures { result.now ≡ self.now.num }
    {
        self.num.as_slice()
    }

    /// The denominator. No memory is taken.
    pub fn den(&self) -> &Poly
        ensures { result.now ≡ self.now.den }
    {
        &self.den
    }

    /// The numerators and the denominator. No memory is taken.
    pub fn into_parts(self) -> (Vec<Poly>, Poly)
        ensures num { result.0.items ≡ self.num }
        ensures den { result.1 ≡ self.den }
    {
        let Written { num, den } = self;
        (num, den)
    }

    /// An equal element, in memory of its own.
    pub fn copy(&self, alloc: Global) -> Result<Written, AllocError>
        ensures { IfOk result (λ z. z ≡ self.now) }
    {
        let num = copy_all(alloc, self.num.as_slice())?;
        let den = self.den.copy(alloc)?;
        Ok(Written { num, den })
    }
}

/// Equal polynomials, in memory of their own.
fn copy_all(alloc: Global, polys: &[Poly]) -> Result<Vec<Poly>, AllocError>
    ensures { IfOk result (λ copies. copies.items ≡ polys.now) }
{
    let mut copies = Vec::new(alloc);
    for p in polys {
        copies.push(p.copy(alloc)?)?;
    }
    Ok(copies)
}
