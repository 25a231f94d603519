//! Matrices of codes.

ghost use Rattle.std.specs.Prelude.{◌≡◌, ◌*◌, ◌<◌, length, replicate, IfOk};
ghost use Rattle.ff_linalg.specs.Matrix.{zero_matrix, entry_of, matrix_row, with_entry};

use std::alloc::{AllocError, Global};
use std::marker::Model;

/// A matrix over a field that each call is given, row after row in one buffer.
#[derive(Debug, Drop)]
pub struct Matrix {
    pub(crate) rows: usize,
    pub(crate) cols: usize,
    pub(crate) entries: Vec<u32>,
}

impl Model for Matrix {
    ghost use Rattle.std.specs.Prelude.{◌≡◌, ◌*◌, length};
    ghost use Rattle.ff_linalg.specs.Matrix.{MatrixValue, rows_in};

    ghost Value = { MatrixValue };

    ghost view = { λ m. record { cols = m.cols; rows = rows_in m.cols m.rows m.entries.items } };

    ghost invariant = { λ m. length m.entries.items ≡ m.rows * m.cols };
}

/// As many zeros as a matrix has entries. More than `usize::MAX` are want of memory.
pub(crate) fn zeros(alloc: Global, rows: usize, cols: usize) -> Result<Vec<u32>, AllocError>
    ensures { IfOk result (λ v. v.items ≡ replicate (rows * cols) 0) }
{
    let count = rows.checked_mul(cols).ok_or(AllocError)?;
    let mut entries = Vec::new(alloc);
    entries.resize(count, 0)?;
    Ok(entries)
}

impl Matrix {
    /// All entries 0. More than `usize::MAX` entries are want of memory.
    pub fn zero(alloc: Global, rows: usize, cols: usize) -> Result<Matrix, AllocError>
        ensures { IfOk result (λ m. m ≡ zero_matrix rows cols) }
    {
        let entries = zeros(alloc, rows, cols)?;
        Ok(Matrix {
            rows,
            cols,
            entries,
        })
    }

    /// How many rows there are.
    pub fn rows(&self) -> usize
        ensures { result ≡ length self.now.rows }
    {
        self.rows
    }

    /// How many columns there are.
    pub fn cols(&self) -> usize
        ensures { result ≡ self.now.cols }
    {
        self.cols
    }

    /// The entry in row r and column c.
    pub fn get(&self, r: usize, c: usize) -> u32
        requires row_in { r < length self.now.rows }
        requires col_in { c < self.now.cols }
        ensures { result ≡ entry_of self.now r c }
    {
        self.entries[r * self.cols + c]
    }

    /// Row r, one code for each column.
    pub fn row(&self, r: usize) -> &[u32]
        requires { r < length self.now.rows }
        ensures { result.now ≡ matrix_row self.now r }
    {
        &self.entries[r * self.cols..r * self.cols + self.cols]
    }

    /// Puts v in row r and column c.
    pub fn set(&mut self, r: usize, c: usize, v: u32)
        requires row_in { r < length self.old.rows }
        requires col_in { c < self.old.cols }
        ensures { self.new ≡ with_entry self.old r c v }
    {
        self.entries[r * self.cols + c] = v;
    }

    /// The same matrix in memory of its own.
    pub fn copy(&self, alloc: Global) -> Result<Matrix, AllocError>
        ensures { IfOk result (λ m. m ≡ self.now) }
    {
        let entries = self.entries.as_slice().to_vec(alloc)?;
        Ok(Matrix {
            rows: self.rows,
            cols: self.cols,
            entries,
        })
    }
}
