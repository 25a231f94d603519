//! The fields whose operations are those of the definition, digit by digit.

ghost use Rattle.std.specs.Prelude.{◌≡◌};
ghost use Rattle.ff_fields.specs.Standards.{standard_of};

use crate::field::SmallField;
use crate::prime::PrimeField;
use crate::residue::ResidueField;

/// A field by its definition, of either kind. It takes no memory. Each call is that of the field it holds, at the same
/// cost.
#[derive(Clone, Copy)]
pub enum Standard {
    /// The numbers modulo a prime.
    Prime(PrimeField),
    /// Polynomials modulo a monic one.
    Residue(ResidueField),
}

/// A field whose operations are those of the definition.
pub trait IsStandard: SmallField {
    /// The field as a value that takes no memory, with the same operations.
    fn standard(&self) -> Standard
        ensures { standard_of result ≡ Self.field self.now };
}

impl SmallField for Standard {
    ghost use Rattle.ff_fields.specs.Standards.{standard_of};

    ghost field = { standard_of };

    fn size(&self) -> u32 {
        match self {
            Standard::Prime(k) => k.size(),
            Standard::Residue(k) => k.size(),
        }
    }

    fn characteristic(&self) -> u32 {
        match self {
            Standard::Prime(k) => k.characteristic(),
            Standard::Residue(k) => k.characteristic(),
        }
    }

    fn add(&self, a: u32, b: u32) -> u32 {
        match self {
            Standard::Prime(k) => k.add(a, b),
            Standard::Residue(k) => k.add(a, b),
        }
    }

    fn sub(&self, a: u32, b: u32) -> u32 {
        match self {
            Standard::Prime(k) => k.sub(a, b),
            Standard::Residue(k) => k.sub(a, b),
        }
    }

    fn neg(&self, a: u32) -> u32 {
        match self {
            Standard::Prime(k) => k.neg(a),
            Standard::Residue(k) => k.neg(a),
        }
    }

    fn mul(&self, a: u32, b: u32) -> u32 {
        match self {
            Standard::Prime(k) => k.mul(a, b),
            Standard::Residue(k) => k.mul(a, b),
        }
    }

    fn inv(&self, a: u32) -> u32 {
        match self {
            Standard::Prime(k) => k.inv(a),
            Standard::Residue(k) => k.inv(a),
        }
    }

    fn add_multiple(&self, sum: &mut [u32], c: u32, codes: &[u32]) {
        match self {
            Standard::Prime(k) => k.add_multiple(sum, c, codes),
            Standard::Residue(k) => k.add_multiple(sum, c, codes),
        }
    }
}

impl IsStandard for Standard {
    fn standard(&self) -> Standard {
        *self
    }
}

impl IsStandard for PrimeField {
    fn standard(&self) -> Standard {
        Standard::Prime(*self)
    }
}

impl IsStandard for ResidueField {
    fn standard(&self) -> Standard {
        Standard::Residue(*self)
    }
}
