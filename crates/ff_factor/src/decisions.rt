//! Whether a polynomial is irreducible.

ghost use Rattle.std.specs.Prelude.{◌↔◌, IfOk, IsTrue};
ghost use Rattle.ff_fields.specs.Over.{IsOver};
ghost use Rattle.ff_poly.specs.Words.{IsIrreducibleList};

use crate::quotient::PolyQuotient;
use ff_falg::is_field;
use ff_fields::field::SmallField;
use ff_poly::Poly;
use std::alloc::{AllocError, Global};

/// Whether g is monic of degree 1 or more, and no monic polynomial of a degree from 1 to one below that of g divides
/// it.
/// Cost: that of `is_field` for the polynomials modulo g.
pub fn is_irreducible<K: SmallField>(alloc: Global, k: &K, g: &Poly) -> Result<bool, AllocError>
    requires { IsOver (K.field k.now).ops g.now }
    ensures { IfOk result (λ t. IsTrue t ↔ IsIrreducibleList (K.field k.now).ops g.now) }
{
    if g.codes().len() < 2 || g.top() != 1 {
        return Ok(false);
    }
    is_field(alloc, k, &PolyQuotient::new(alloc, g)?)
}
