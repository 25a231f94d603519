//! The lattice of the rows of the unit matrix.

ghost use Rattle.std.specs.Prelude.{◌≡◌, [], ◌∷◌, IfOk};
ghost use Rattle.ff_poly.specs.Popov.{rows_of};
ghost use Rattle.ff_lattice.specs.Lattices.{IsLatticeValue, IsSpannedBy, elems_over};
ghost use Rattle.ff_lattice.specs.Units.{unit_rows};

use crate::lattice::{Lattice, normalized};
use crate::rows::unit_row;
use ff_fields::field::SmallField;
use ff_poly::Poly;
use std::alloc::{AllocError, Global};

/// The rows of the unit matrix.
fn unit_rows(alloc: Global, n: usize) -> Result<Vec<Vec<Poly>>, AllocError>
    ensures { IfOk result (λ rows. rows_of rows.items ≡ unit_rows n n) }
{
    let mut rows = Vec::new(alloc);
    for i in 0..n {
        rows.push(unit_row(alloc, n, i)?)?;
    }
    Ok(rows)
}

/// The lattice of the rows of the unit matrix over 1, which stand for 1, y, up to y^(n-1). It takes the time of the
/// least denominator of n² constants over 1.
pub fn unit_lattice<K: SmallField>(alloc: Global, k: &K, n: usize) -> Result<Lattice, AllocError>
    ensures form { IfOk result (IsLatticeValue (K.field k.now).ops n) }
    ensures members { IfOk result (IsSpannedBy (K.field k.now) n (elems_over (unit_rows n n) (1 ∷ []))) }
{
    let rows = unit_rows(alloc, n)?;
    let one = Poly::one(alloc)?;
    normalized(alloc, k, &rows, n, &one)
}
