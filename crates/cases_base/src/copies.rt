//! Copies of the field, as an algebra: codes multiplied position by position.

ghost use Rattle.cases_base.specs.Positions.{positions_algebra, positions_laws};

use ff_falg::FiniteAlgebra;
use ff_fields::field::SmallField;
use std::alloc::{AllocError, Global};

/// So many copies of the field.
#[derive(Drop)]
pub struct Copies(pub usize);

impl<K: SmallField> FiniteAlgebra<K> for Copies {
    ghost algebra = { λ a. positions_algebra a.0 };

    ghost IsOver = { λ a k. Unit {0} };

    ghost laws = { λ a k over. positions_laws k a.0 };

    fn dim(&self) -> usize {
        self.0
    }

    fn one(&self, alloc: Global) -> Result<Vec<u32>, AllocError> {
        vec![in alloc; 1; self.0]
    }

    fn mul(&self, alloc: Global, k: &K, a: &[u32], b: &[u32]) -> Result<Vec<u32>, AllocError> {
        let mut out = Vec::new(alloc);
        for i in 0..a.len() {
            out.push(k.mul(a[i], b[i]))?;
        }
        Ok(out)
    }
}
