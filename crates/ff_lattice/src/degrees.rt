//! Pivot degrees of lattices.

ghost use Rattle.std.specs.Prelude.{◌≡◌, ◌<◌, ◌^◌, length};
ghost use Rattle.ff_lattice.specs.Lattices.{pivot_degree_of};

use crate::lattice::Lattice;

impl Lattice {
    /// The sum of the degrees of the pivots, less the number of rows times the degree of the denominator.
    pub fn pivot_degree(&self) -> i128
        requires few { length self.now.rows < 2 ^ 62 }
        ensures { result ≡ pivot_degree_of self.now }
    {
        let rows = self.rows();
        let mut sum: i128 = 0;
        for i in 0..rows.len() {
            sum += (rows[i][i].len() - 1) as i128;
        }
        let degree = self.den().len() - 1;
        sum - rows.len() as i128 * degree as i128
    }
}
