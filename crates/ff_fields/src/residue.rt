//! The fields of p to the m elements, as polynomials modulo a monic one.

ghost use Rattle.std.specs.Prelude.{◌≡◌, ℕ, ◌+◌, ◌^◌, ◌<◌, ◌↔◌, length, take, IsOk, IfOk, IfErr, IfNone, IfSome};
ghost use Rattle.std.specs.Option.{SomeIff};
ghost use Rattle.ff_fields.specs.Field.{pow_of};
ghost use Rattle.ff_fields.specs.Laws.{IsProductOf, IsCodeSum};
ghost use Rattle.ff_fields.specs.Modulus.{IsFieldModulus, IsFieldSize, IsFirstOutside, IsFaultOf, IsMonicModulus};
ghost use Rattle.ff_fields.specs.Over.{IsOver};
ghost use Rattle.ff_fields.specs.Prime.{prime_of};
ghost use Rattle.ff_fields.specs.Residue.{digits, residue_of};

use crate::bits::multiply_bits;
use crate::digits::{add_digits, code_of, neg_digits};
use crate::factors::zero_product;
use crate::fault::FieldFault;
use crate::field::SmallField;
use crate::reduce::multiply_residues;

// p to the m, where a field may have that size.
fn field_size(p: u32, m: u32) -> Option<u32>
    ensures { SomeIff result (IsFieldSize p m) (p ^ m) }
{
    match (p, m) {
        (_, 0) => None,
        (2 | 3 | 5 | 7 | 11 | 13, _) => match p.checked_pow(m) {
            Some(size) if size <= 65_536 => Some(size),
            _ => None,
        },
        _ => None,
    }
}

// The first coefficient that is p or more.
fn first_outside(p: u32, modulus: &[u32]) -> Option<u32>
    ensures none { IfNone result (IsOver (prime_of p) modulus.now) }
    ensures some { IfSome result (IsFirstOutside p modulus.now) }
{
    for c in modulus {
        if *c >= p {
            return Some(*c);
        }
    }
    None
}

/// The polynomials over the numbers modulo p, modulo a monic one of degree m that makes them a field of at most 65,536
/// elements.
#[derive(Clone, Copy)]
pub struct ResidueField {
    p: u32,
    m: u32,
    size: u32,
    // The coefficients, lowest first, with zeros above the top.
    modulus: [u32; 17],
    // The coefficients as one code, which is p to the m or more.
    code: u32,
    ghost is_field: { IsFieldModulus p m (take (m + 1) modulus) },
    ghost size_is: { size ≡ p ^ m },
    ghost code_is: { digits p (m + 1) code ≡ take (m + 1) modulus },
    ghost code_in: { code < p ^ (m + 1) },
}

impl ResidueField {
    /// The field of p to the m elements by this modulus, whose m + 1 coefficients stand lowest first.
    ///
    /// `FieldSize(p, m)` where p isn't listed, m is 0 or p to the m is above 65,536; else `CodeRange(c)` at the first
    /// coefficient c that is p or more; else `NotMonic(c)` where the top coefficient c isn't 1; else `NotField(a, b)`
    /// where a·b = 0 for codes that aren't 0, at the least such a and then the least b. That a is the first monic
    /// divisor of the modulus, of at most half its degree, in the order of codes, and b is its cofactor, so at most 510
    /// trial divisions find them.
    pub fn new(p: u32, m: u32, modulus: &[u32]) -> Result<ResidueField, FieldFault>
        requires { length modulus.now ≡ m + 1 }
        ensures ok { IsOk result ↔ IsFieldModulus p m modulus.now }
        ensures made { IfOk result (λ k. (⟦<ResidueField as SmallField>⟧.field k).ops ≡ residue_of p m modulus.now) }
        ensures fault { IfErr result (IsFaultOf p m modulus.now) }
    {
        let Some(size) = field_size(p, m) else {
            return Err(FieldFault::FieldSize(p, m));
        };
        if let Some(c) = first_outside(p, modulus) {
            return Err(FieldFault::CodeRange(c));
        }
        let top = modulus[m as usize];
        if top != 1 {
            return Err(FieldFault::NotMonic(top));
        }
        if let Some((a, b)) = zero_product(p, m, modulus) {
            return Err(FieldFault::NotField(a, b));
        }
        let mut padded = [0; 17];
        padded[..modulus.len()].copy_from_slice(modulus);
        Ok(ResidueField {
            p,
            m,
            size,
            modulus: padded,
            code: code_of(p, modulus),
        })
    }

    // The product, where the trait's `mul` can't be called.
    fn product(&self, a: u32, b: u32) -> u32
        requires { b < (⟦<ResidueField as SmallField>⟧.field self.now).size }
        ensures { result ≡ (⟦<ResidueField as SmallField>⟧.field self.now).mul a b }
    {
        if self.p == 2 {
            multiply_bits(self.m, self.code, a, b)
        } else {
            multiply_residues(self.p, self.m, &self.modulus[..self.m as usize + 1], a, b)
        }
    }

    // A power by squaring. The trait's own `pow` can't be called by a method that the trait asks for.
    fn power(&self, a: u32, e: u32) -> u32
        requires { a < (⟦<ResidueField as SmallField>⟧.field self.now).size }
        ensures { result ≡ pow_of (⟦<ResidueField as SmallField>⟧.field self.now).ops a e }
    {
        let mut power = 1;
        let mut square = a;
        let mut left = e;
        while left > 0 {
            if left % 2 == 1 {
                power = self.product(power, square);
            }
            square = self.product(square, square);
            left /= 2;
        }
        power
    }
}

impl SmallField for ResidueField {
    ghost use Rattle.ff_fields.specs.Modulus.{modulus_field};

    ghost field = { λ k. modulus_field k.p k.m (take (k.m + 1) k.modulus) k.is_field };

    fn size(&self) -> u32 {
        self.size
    }

    fn characteristic(&self) -> u32 {
        self.p
    }

    fn add(&self, a: u32, b: u32) -> u32 {
        if self.p == 2 {
            a ^ b
        } else {
            add_digits(self.p, self.m, a, b)
        }
    }

    fn sub(&self, a: u32, b: u32) -> u32 {
        self.add(a, self.neg(b))
    }

    fn neg(&self, a: u32) -> u32 {
        if self.p == 2 {
            a
        } else {
            neg_digits(self.p, self.m, a)
        }
    }

    fn mul(&self, a: u32, b: u32) -> u32 {
        self.product(a, b)
    }

    fn inv(&self, a: u32) -> u32 {
        self.power(a, self.size - 2)
    }
}

/// A law: the sum of two codes is the one code whose polynomial is the sum of theirs, and their product the one whose
/// polynomial is congruent to the product of theirs modulo the modulus.
pub fn residue_law(p: u32, m: u32, modulus: &[u32])
    requires { IsMonicModulus p m modulus.now }
    ensures sum { let k = residue_of p m modulus.now in (a b c : ℕ) → (c ≡ k.add a b) ↔ IsCodeSum p m a b c }
    ensures product { let k = residue_of p m modulus.now in
        (a b c : ℕ) → (c ≡ k.mul a b) ↔ IsProductOf p m modulus.now a b c }
{}
