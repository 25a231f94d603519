//! Rows of polynomials in weak Popov and Popov form.

ghost use Rattle.std.specs.Prelude.{◌≡◌, All};
ghost use Rattle.ff_poly.specs.Popov.{rows_of, width_of, IsRow, IsPopovMatrix};

use case_values::print::{push_rows, row_text, rows_text, worded};
use case_values::read::{BAD, number, parted, row};
use case_values::rows::rows;
use ff_fields::field::SmallField;
use ff_poly::Poly;
use ff_popov::{Steps, coordinates, popov, weak_popov};
use std::alloc::{AllocError, Global};
use std::marker::Brand;
use std::sync::ledger::{Blank, Ledger};

// How many steps the reduction takes.
fn steps_taken<K: SmallField, L: Ledger>(
    alloc: Global,
    k: &K,
    blank: Blank,
    rows: &mut Vec<Vec<Poly>>,
) -> Result<u64, AllocError>
    requires name { blank.name ≡ L.name }
    requires parts { blank.parts ≡ L.parts }
    requires one { blank.parts ≡ 1 }
    requires rows_in { All (IsRow (K.field k.now).ops (width_of (rows_of rows.old.items))) (rows_of rows.old.items) }
{
    let mut steps = Steps::<L>::new(blank);
    weak_popov(alloc, k, rows, &mut steps)?;
    Ok(steps.taken())
}

// The number of steps, and the rows in weak Popov form.
fn weak_text<K: SmallField>(
    alloc: Global,
    k: &K,
    width: usize,
    found: Vec<Vec<Poly>>,
) -> Result<String, AllocError>
    requires { All (IsRow (K.field k.now).ops width) (rows_of found.items) }
{
    let mut reduced = found;
    let taken = steps_taken::<K, Brand>(alloc, k, Blank::new(1), &mut reduced)?;
    let mut out = worded(alloc, "steps", taken)?;
    out.push_str(": ")?;
    push_rows(&mut out, reduced.as_slice())?;
    Ok(out)
}

// `w: rows`: the same of the rows of the text.
fn weak<K: SmallField>(alloc: Global, k: &K, text: &str) -> Result<String, AllocError> {
    let (w, rest) = parted(text)?;
    let w = number(w)? as usize;
    weak_text(alloc, k, w, rows(alloc, k, w, rest)?)
}

// `w: rows`: the Popov basis.
fn basis<K: SmallField>(alloc: Global, k: &K, text: &str) -> Result<String, AllocError> {
    let (w, rest) = parted(text)?;
    let w = number(w)? as usize;
    let found = rows(alloc, k, w, rest)?;
    match popov(alloc, k, found, w)? {
        Some(basis) => rows_text(alloc, basis.as_slice()),
        None => "none".to_string(alloc),
    }
}

// The coordinates in the basis.
fn coordinates_text<K: SmallField>(
    alloc: Global,
    k: &K,
    w: usize,
    basis: &Vec<Vec<Poly>>,
    v: &Vec<Poly>,
) -> Result<String, AllocError>
    requires basis_in { All (IsRow (K.field k.now).ops w) (rows_of basis.now.items) }
    requires popov { IsPopovMatrix w (rows_of basis.now.items) }
    requires v_in { IsRow (K.field k.now).ops w v.now.items }
{
    match coordinates(alloc, k, basis.as_slice(), v.as_slice())? {
        Some(found) => row_text(alloc, found.as_slice()),
        None => "none".to_string(alloc),
    }
}

// `w: rows: v`: the coordinates of v in the Popov basis of the rows.
fn coordinates_line<K: SmallField>(alloc: Global, k: &K, text: &str) -> Result<String, AllocError> {
    let (w, rest) = parted(text)?;
    let (generators, v) = parted(rest)?;
    let w = number(w)? as usize;
    let Some(basis) = popov(alloc, k, rows(alloc, k, w, generators)?, w)? else {
        return "no basis".to_string(alloc);
    };
    let v = row(alloc, k, v)?;
    if v.len() != w {
        return Err(BAD);
    }
    coordinates_text(alloc, k, w, &basis, &v)
}

/// The rows in weak Popov form, the Popov basis, or coordinates in it.
pub fn reduced_line<K: SmallField>(
    alloc: Global,
    k: &K,
    word: &str,
    text: &str,
) -> Result<String, AllocError> {
    match word {
        "weak" => weak(alloc, k, text),
        "popov" => basis(alloc, k, text),
        _ => coordinates_line(alloc, k, text),
    }
}
