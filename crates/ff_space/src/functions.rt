//! The functions of vectors, in lowest terms.

ghost use Rattle.std.specs.Prelude.{◌≡◌, ◌≤◌, ◌*◌, length, All, IfOk};
ghost use Rattle.ff_fields.specs.Over.{IsOver};
ghost use Rattle.ff_poly.specs.Words.{IsMonicList};
ghost use Rattle.ff_factor.specs.LowestTerms.{AreIrreducible, HasFactorsOf};
ghost use Rattle.ff_linalg.specs.Matrix.{HasShape, IsMatrixOver};
ghost use Rattle.ff_written.specs.LowestTerms.{IsWritten};
ghost use Rattle.ff_space.specs.Spaces.{AreRowFunctions, written};
ghost use Rattle.ff_space.specs.Vectors.{over_den};

use crate::vectors::parts_of;
use ff_algebra::{Elem, Pres};
use ff_factor::{cancel, factor};
use ff_fields::field::SmallField;
use ff_linalg::Matrix;
use ff_poly::Poly;
use std::alloc::{AllocError, Global};

/// The function of the vector over the denominator, in lowest terms, where each irreducible monic divisor of the
/// denominator is listed.
fn lowest_function<K: SmallField>(
    alloc: Global,
    k: &K,
    p: &Pres,
    den: &Poly,
    width: usize,
    codes: &[u32],
    divisors: &[Poly],
) -> Result<Elem, AllocError>
    requires positive { 1 ≤ p.now.n }
    requires den_in { IsOver (K.field k.now).ops den.now }
    requires monic { IsMonicList den.now }
    requires count { length codes.now ≡ p.now.n * width }
    requires codes_in { IsOver (K.field k.now).ops codes.now }
    requires irreducible { AreIrreducible (K.field k.now).ops divisors.now }
    requires each { HasFactorsOf (K.field k.now).ops divisors.now den.now }
    ensures { let k = K.field k.now in
        IfOk result (λ z. IsWritten k p.now (over_den k p.now den.now width codes.now) (written z)) }
{
    let mut num = parts_of(alloc, codes, width, p.n())?;
    let mut lower = den.copy(alloc)?;
    cancel(alloc, k, &mut num, &mut lower, divisors)?;
    Ok(Elem::over_monic(num, lower))
}

/// The functions of the rows over the denominator, in lowest terms. It takes the factors of the denominator.
pub(crate) fn row_functions<K: SmallField>(
    alloc: Global,
    k: &K,
    p: &Pres,
    den: &Poly,
    width: usize,
    rows: &Matrix,
) -> Result<Vec<Elem>, AllocError>
    requires positive { 1 ≤ p.now.n }
    requires den_in { IsOver (K.field k.now).ops den.now }
    requires monic { IsMonicList den.now }
    requires shape { HasShape rows.now (length rows.now.rows) (p.now.n * width) }
    requires over { IsMatrixOver (K.field k.now).ops rows.now }
    ensures { IfOk result (λ zs. AreRowFunctions (K.field k.now) p.now den.now width rows.now.rows zs.items) }
{
    let divisors = factor(alloc, k, den)?.polys(alloc)?;
    let mut functions = Vec::new(alloc);
    for i in 0..rows.rows() {
        let z = lowest_function(alloc, k, p, den, width, rows.row(i), divisors.as_slice())?;
        functions.push(z)?;
    }
    Ok(functions)
}
