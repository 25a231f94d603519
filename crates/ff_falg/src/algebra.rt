//! What every finite algebra offers.

ghost use Rattle.std.specs.Prelude.{◌≡◌, IfOk};
ghost use Rattle.ff_fields.specs.Field.{CodeField};
ghost use Rattle.ff_falg.specs.Algebras.{AlgebraOps, IsAlgebra, IsVector};

use ff_fields::field::SmallField;
use std::alloc::{AllocError, Global};

/// A commutative algebra with unit, of finite dimension over a small field that each call is given. An element is the
/// list of its coordinates, as many codes as the dimension.
pub trait FiniteAlgebra<K: SmallField> {
    // The dimension, the unit, and the product over a field.
    ghost algebra: { Self → AlgebraOps };

    // It is an algebra over this field.
    ghost IsOver: { Self → CodeField → Type 0 };

    // What that says. It is a value, and not a law of the trait, so that an algebra says itself over which fields it is
    // one.
    ghost laws: { (a : Self) (k : CodeField) → IsOver a k → IsAlgebra k (algebra a) };

    /// The dimension. No memory.
    fn dim(&self) -> usize
        ensures { result ≡ (algebra self.now).size };

    /// The unit.
    fn one(&self, alloc: Global) -> Result<Vec<u32>, AllocError>
        ensures { IfOk result (λ v. v.items ≡ (algebra self.now).unit) };

    /// The product of two elements.
    fn mul(&self, alloc: Global, k: &K, a: &[u32], b: &[u32]) -> Result<Vec<u32>, AllocError>
        requires over { IsOver self.now (K.field k.now) }
        requires a_in { IsVector (K.field k.now).ops (algebra self.now).size a.now }
        requires b_in { IsVector (K.field k.now).ops (algebra self.now).size b.now }
        ensures { IfOk result (λ v. v.items ≡ (algebra self.now).product (K.field k.now).ops a.now b.now) };

    /// An element whose products with basis elements are basis elements as often as possible. Any answer is right; a
    /// good one saves powers in `frobenius`. Here the unit.
    fn generator(&self, alloc: Global, k: &K) -> Result<Vec<u32>, AllocError>
        requires over { IsOver self.now (K.field k.now) }
        ensures { IfOk result (λ v. IsVector (K.field k.now).ops (algebra self.now).size v.items) }
    {
        self.one(alloc)
    }
}
