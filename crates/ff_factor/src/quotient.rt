//! Polynomials modulo a monic one, as a finite algebra.

ghost use Rattle.std.specs.Prelude.{◌≡◌, ◌≤◌, ◌-◌, ℕ, List, length, IfOk};
ghost use Rattle.ff_falg.specs.Algebras.{IsVector};
ghost use Rattle.ff_poly.specs.Words.{IsMonicList, product_of};
ghost use Rattle.ff_factor.specs.Quotients.{IsModulus, IsResidue, quotient_algebra};
ghost use Rattle.ff_factor.specs.QuotientLaws.{quotient_laws};

use crate::steps::multiply;
use ff_falg::FiniteAlgebra;
use ff_fields::field::SmallField;
use ff_poly::Poly;
use std::alloc::{AllocError, Global};
use std::marker::Model;

/// The algebra k[x]/(g) with the basis 1, x, up to x to the power deg g - 1, for a monic g of degree 1 or more. An
/// element stands for the polynomial with its codes, lowest first.
#[derive(Debug, Drop)]
pub struct PolyQuotient {
    g: Poly,
}

impl Model for PolyQuotient {
    ghost use Rattle.std.specs.Prelude.{List, ℕ};
    ghost use Rattle.ff_factor.specs.Quotients.{IsMonicOverOne};

    ghost Value = { List ℕ };

    ghost view = { λ q. q.g };

    ghost invariant = { λ q. IsMonicOverOne q.g };
}

impl PolyQuotient {
    /// The polynomials modulo g, of which a copy is kept.
    pub fn new(alloc: Global, g: &Poly) -> Result<PolyQuotient, AllocError>
        requires monic { IsMonicList g.now }
        requires not_constant { 2 ≤ length g.now }
        ensures { IfOk result (λ q. q ≡ g.now) }
    {
        let g = g.copy(alloc)?;
        Ok(PolyQuotient { g })
    }

    /// An equal algebra, in memory of its own.
    pub fn copy(&self, alloc: Global) -> Result<PolyQuotient, AllocError>
        ensures { IfOk result (λ c. c ≡ self.now) }
    {
        PolyQuotient::new(alloc, &self.g)
    }

    /// The polynomial g. No memory is taken.
    pub fn modulus(&self) -> &Poly
        ensures { result.now ≡ self.now }
    {
        &self.g
    }
}

impl<K: SmallField> FiniteAlgebra<K> for PolyQuotient {
    ghost algebra = { quotient_algebra };

    ghost IsOver = { λ g k. IsModulus k.ops g };

    ghost laws = { λ g k over. quotient_laws k g over };

    fn dim(&self) -> usize {
        self.g.codes().len() - 1
    }

    fn one(&self, alloc: Global) -> Result<Vec<u32>, AllocError> {
        let mut unit = vec![in alloc; 0; self.g.codes().len() - 1]?;
        unit[0] = 1;
        Ok(unit)
    }

    /// The product takes as many steps as a has codes up to the last that isn't 0, each in time of the degree of g, and
    /// memory for the answer alone.
    fn mul(&self, alloc: Global, k: &K, a: &[u32], b: &[u32]) -> Result<Vec<u32>, AllocError> {
        let mut product = vec![in alloc; 0; b.len()]?;
        multiply(k, self.g.codes(), product.as_mut_slice(), a, b);
        Ok(product)
    }

    /// The class of x, basis element 1; in dimension 1 the unit.
    fn generator(&self, alloc: Global, k: &K) -> Result<Vec<u32>, AllocError> {
        let mut class = vec![in alloc; 0; self.g.codes().len() - 1]?;
        let position = class.len().min(2) - 1;
        class[position] = 1;
        Ok(class)
    }
}

/// A law: the product of two elements is what the product of their polynomials leaves modulo g.
pub fn product_law<K: SmallField>(k: &K)
    ensures { let ops = (K.field k.now).ops in
        (g a b : List ℕ) → IsModulus ops g → IsVector ops (length g - 1) a → IsVector ops (length g - 1) b →
        IsResidue ops g (product_of ops a b) ((quotient_algebra g).product ops a b) }
{}
