//! A small field of any kind.

ghost use Rattle.std.specs.Prelude.{◌≡◌, IfOk};
ghost use Rattle.ff_fields.specs.Fields.{field_of};

use crate::field::SmallField;
use crate::prime::PrimeField;
use crate::residue::ResidueField;
use crate::standard::{IsStandard, Standard};
use crate::table::TableField;
use std::alloc::{AllocError, Global};

/// A field of any kind. Each call is that of the field it holds, at the same cost.
#[derive(Drop)]
pub enum Field {
    /// The numbers modulo a prime.
    Prime(PrimeField),
    /// Polynomials modulo a monic one.
    Residue(ResidueField),
    /// A field of either kind by tables, which it owns.
    Table(TableField),
}

impl Field {
    /// The same field, in memory of its own.
    pub fn copy(&self, alloc: Global) -> Result<Field, AllocError>
        ensures { IfOk result (λ k. k ≡ self.now) }
    {
        match self {
            Field::Prime(k) => Ok(Field::Prime(*k)),
            Field::Residue(k) => Ok(Field::Residue(*k)),
            Field::Table(k) => {
                let table = k.copy(alloc)?;
                Ok(Field::Table(table))
            }
        }
    }
}

impl SmallField for Field {
    ghost use Rattle.ff_fields.specs.Fields.{field_of};

    ghost field = { field_of };

    fn size(&self) -> u32 {
        match self {
            Field::Prime(k) => k.size(),
            Field::Residue(k) => k.size(),
            Field::Table(k) => k.size(),
        }
    }

    fn characteristic(&self) -> u32 {
        match self {
            Field::Prime(k) => k.characteristic(),
            Field::Residue(k) => k.characteristic(),
            Field::Table(k) => k.characteristic(),
        }
    }

    fn add(&self, a: u32, b: u32) -> u32 {
        match self {
            Field::Prime(k) => k.add(a, b),
            Field::Residue(k) => k.add(a, b),
            Field::Table(k) => k.add(a, b),
        }
    }

    fn sub(&self, a: u32, b: u32) -> u32 {
        match self {
            Field::Prime(k) => k.sub(a, b),
            Field::Residue(k) => k.sub(a, b),
            Field::Table(k) => k.sub(a, b),
        }
    }

    fn neg(&self, a: u32) -> u32 {
        match self {
            Field::Prime(k) => k.neg(a),
            Field::Residue(k) => k.neg(a),
            Field::Table(k) => k.neg(a),
        }
    }

    fn mul(&self, a: u32, b: u32) -> u32 {
        match self {
            Field::Prime(k) => k.mul(a, b),
            Field::Residue(k) => k.mul(a, b),
            Field::Table(k) => k.mul(a, b),
        }
    }

    fn inv(&self, a: u32) -> u32 {
        match self {
            Field::Prime(k) => k.inv(a),
            Field::Residue(k) => k.inv(a),
            Field::Table(k) => k.inv(a),
        }
    }

    fn pow(&self, a: u32, e: u64) -> u32 {
        match self {
            Field::Prime(k) => k.pow(a, e),
            Field::Residue(k) => k.pow(a, e),
            Field::Table(k) => k.pow(a, e),
        }
    }

    fn add_multiple(&self, sum: &mut [u32], c: u32, codes: &[u32]) {
        match self {
            Field::Prime(k) => k.add_multiple(sum, c, codes),
            Field::Residue(k) => k.add_multiple(sum, c, codes),
            Field::Table(k) => k.add_multiple(sum, c, codes),
        }
    }
}

impl IsStandard for Field {
    fn standard(&self) -> Standard {
        match self {
            Field::Prime(k) => k.standard(),
            Field::Residue(k) => k.standard(),
            Field::Table(k) => k.standard(),
        }
    }
}
