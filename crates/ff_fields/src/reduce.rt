//! Products of polynomials over a prime field, reduced by a monic one as they are made.

ghost use Rattle.std.specs.Prelude.{◌≡◌, ℕ, ◌+◌, ◌-◌, ◌<◌, ◌≤◌, length, slice_index, IsTrue};
ghost use Rattle.ff_fields.specs.Modulus.{IsMonicModulus, IsReducedProduct, stepped};
ghost use Rattle.ff_fields.specs.Over.{IsOver};
ghost use Rattle.ff_fields.specs.Prime.{is_listed, prime_of};
ghost use Rattle.ff_fields.specs.Residue.{residue_mul};

use crate::digits::{code_of, write_digits};

/// Turns `rest` into s·rest + c·row, less the multiple of the modulus that clears the top, and answers that multiple.
fn step(p: u32, rest: &mut [u32], c: u32, row: &[u32], modulus: &[u32]) -> u32
    requires base { IsTrue (is_listed p) }
    requires some { 0 < length rest.old }
    requires row_long { length rest.old ≤ length row.now }
    requires modulus_long { length rest.old ≤ length modulus.now }
    requires c_in { c < p }
    requires rest_in { IsOver (prime_of p) rest.old }
    requires row_in { IsOver (prime_of p) row.now }
    requires modulus_in { IsOver (prime_of p) modulus.now }
    ensures top { result ≡ slice_index rest.old (length rest.old - 1) }
    ensures each { (n : ℕ) → n < length rest.old
        → slice_index rest.new n ≡ stepped p rest.old c row.now (p - result) modulus.now n }
{
    let top = rest[rest.len() - 1];
    let lost = p - top;
    let mut below = 0;
    for j in 0..rest.len() {
        let here = rest[j];
        rest[j] = (below + lost * modulus[j] + c * row[j]) % p;
        below = here;
    }
    top
}

/// Reduces a·b, and what stands in `rest` moved up by the length of a, by the monic modulus.
pub(crate) fn reduce_product(
    p: u32,
    rest: &mut [u32],
    quotient: &mut [u32],
    a: &[u32],
    b: &[u32],
    modulus: &[u32],
)
    requires base { IsTrue (is_listed p) }
    requires some { 0 < length rest.old }
    requires room { length quotient.old ≡ length a.now }
    requires b_long { length b.now ≡ length rest.old }
    requires modulus_long { length modulus.now ≡ length rest.old + 1 }
    requires monic { slice_index modulus.now (length rest.old) ≡ 1 }
    requires a_in { IsOver (prime_of p) a.now }
    requires b_in { IsOver (prime_of p) b.now }
    requires rest_in { IsOver (prime_of p) rest.old }
    requires modulus_in { IsOver (prime_of p) modulus.now }
    ensures whole { IsReducedProduct p a.now b.now rest.old quotient.new modulus.now rest.new }
    ensures rest_in { IsOver (prime_of p) rest.new }
    ensures quotient_in { IsOver (prime_of p) quotient.new }
{
    let mut i = a.len();
    while i > 0 {
        i -= 1;
        quotient[i] = step(p, rest, a[i], b, modulus);
    }
}

/// The product of two residues modulo the monic modulus of degree m.
#[tactic(auto, using(crate::proofs::Sizes::size_short))]
pub(crate) fn multiply_residues(p: u32, m: u32, modulus: &[u32], a: u32, b: u32) -> u32
    requires { IsMonicModulus p m modulus.now }
    ensures { result ≡ residue_mul p m modulus.now a b }
{
    let (mut x, mut y, mut rest, mut quotient) = ([0; 16], [0; 16], [0; 16], [0; 16]);
    let x = &mut x[..m as usize];
    let y = &mut y[..m as usize];
    let rest = &mut rest[..m as usize];
    let quotient = &mut quotient[..m as usize];
    write_digits(p, x, a);
    write_digits(p, y, b);
    reduce_product(p, rest, quotient, x, y, modulus);
    code_of(p, rest)
}
