//! Multiples of lattices by fractions.

ghost use Rattle.std.specs.Prelude.{◌≡◌, ◌≢◌, ◌↔◌, ◌≤◌, [], length, IfOk};
ghost use Rattle.ff_fields.specs.Over.{IsOver};
ghost use Rattle.function_field.specs.Values.{PresValue, Functions};
ghost use Rattle.ff_lattice.specs.Lattices.{IsLatticeValue, Contains, IsScaled};

use crate::lattice::{Lattice, from_rows};
use crate::rows::multiple_rows;
use ff_fields::field::SmallField;
use ff_poly::{Poly, poly};
use std::alloc::{AllocError, Global};

/// The functions num/den times a member of the lattice. The rows times num are already without two pivots in one
/// column, so that it takes the time of a Popov basis without a step of reduction, and of the least denominator.
pub fn scale<K: SmallField>(
    alloc: Global,
    k: &K,
    a: &Lattice,
    num: &Poly,
    den: &Poly,
) -> Result<Lattice, AllocError>
    requires some { 1 ≤ length a.now.rows }
    requires a_form { IsLatticeValue (K.field k.now).ops (length a.now.rows) a.now }
    requires num_in { IsOver (K.field k.now).ops num.now }
    requires num_some { num.now ≢ [] }
    requires den_in { IsOver (K.field k.now).ops den.now }
    requires den_some { den.now ≢ [] }
    ensures form { IfOk result (IsLatticeValue (K.field k.now).ops (length a.now.rows)) }
    ensures members { let k = K.field k.now in
        IfOk result (λ l.
        (p : PresValue) →
        p.n ≡ length a.now.rows →
        (z : Functions k p) →
        Contains k p l z ↔ IsScaled k p num.now den.now (Contains k p a.now) z) }
{
    let len = num.len();
    prove!(len > 0);
    let inverse = k.inv(den.top());
    let top = poly::scale(alloc, k, num, inverse)?;
    let bottom = poly::scale(alloc, k, den, inverse)?;
    let rows = multiple_rows(alloc, k, &top, a.rows(), a.len())?;
    let e = poly::mul(alloc, k, &bottom, a.den())?;
    match from_rows(alloc, k, rows, a.len(), &e)? {
        Some(lattice) => Ok(lattice),
        None => unreachable!(),
    }
}
