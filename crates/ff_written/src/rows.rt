//! The rows of a lattice of a side as they are written.

ghost use Rattle.std.specs.Prelude.{IfOk};
ghost use Rattle.function_field.specs.Curves.{IsCurve};
ghost use Rattle.ff_lattice.specs.Lattices.{IsLatticeValue, row_elems};
ghost use Rattle.value_theory.specs.IntegralLattices.{presentation};
ghost use Rattle.ff_written.specs.Rows.{AreWrittenRows};

use crate::written::written;
use ff_algebra::Side;
use ff_algebra::curve::Curve;
use ff_fields::field::SmallField;
use ff_lattice::Lattice;
use ff_text::Written;
use std::alloc::{AllocError, Global};
use std::marker::Model;

/// The rows of a lattice, which are functions.
#[derive(Drop)]
pub struct RowList {
    /// The rows in the order in which they are printed.
    pub rows: Vec<Written>,
}

impl Model for RowList {
    ghost use Rattle.std.specs.Prelude.{List};
    ghost use Rattle.ff_text.specs.Printed.{WrittenValue};

    ghost Value = { List WrittenValue };

    ghost view = { λ l. l.rows.items };
}

/// The rows of a lattice of the side, in x and y in lowest terms. It takes the factors of each row's denominator.
pub fn written_rows<K: SmallField>(
    alloc: Global,
    k: &K,
    curve: &Curve,
    side: Side,
    l: &Lattice,
) -> Result<RowList, AllocError>
    requires curve { IsCurve (K.field k.now) curve.now }
    requires form { IsLatticeValue (K.field k.now).ops (presentation curve.now side).n l.now }
    ensures { IfOk result (AreWrittenRows (K.field k.now) curve.now side (row_elems l.now)) }
{
    let mut rows = Vec::new(alloc);
    for i in 0..l.len() {
        let r = l.row(alloc, i)?;
        rows.push(written(alloc, k, curve, side, &r)?)?;
    }
    Ok(RowList { rows })
}
