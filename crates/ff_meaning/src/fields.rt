//! The fields that lines name.

ghost use Rattle.std.specs.Prelude.{◌≡◌, IfOk, IfErr};
ghost use Rattle.ff_fields.specs.Fields.{field_of};
ghost use Rattle.ff_script.specs.Grammar.{IsWhole};
ghost use Rattle.ff_meaning.specs.FieldLines.{Names};
ghost use Rattle.ff_meaning.specs.Refusals.{IsFieldLineFault, refusal_of_field};

use crate::refusal::Refusal;
use ff_fields::fault::FieldFault;
use ff_fields::fields::Field;
use ff_fields::prime::PrimeField;
use ff_fields::residue::ResidueField;
use ff_fields::table::TableField;
use ff_poly::Poly;
use ff_script::Modulus;
use std::alloc::{AllocError, Global};

/// The field that the line names: the numbers modulo p, or the polynomials over them modulo the one that is written.
/// Else why there is none. No memory is taken.
pub fn field(p: u32, tail: &Option<Modulus>) -> Result<Field, FieldFault>
    requires { IsWhole tail.now }
    ensures made { IfOk result (λ k. Names p tail.now (field_of k).ops) }
    ensures fault { IfErr result (IsFieldLineFault p tail.now) }
{
    match tail {
        None => Ok(Field::Prime(PrimeField::new(p)?)),
        Some(modulus) => {
            let k = ResidueField::new(p, modulus.m, modulus.codes.codes.as_slice())?;
            Ok(Field::Residue(k))
        }
    }
}

/// The same field by tables of powers and logarithms, or as it is where no code has all the powers. Products and
/// inverses take two look-ups then; the tables take 6 bytes for each element.
pub fn by_tables(alloc: Global, k: Field) -> Result<Field, AllocError>
    ensures { IfOk result (λ t. field_of t ≡ field_of k) }
{
    match TableField::new(alloc, &k)? {
        Some(table) => Ok(Field::Table(table)),
        None => Ok(k),
    }
}

/// The refusal that tells the fault of a field line.
pub fn field_refusal(alloc: Global, fault: FieldFault) -> Result<Refusal, AllocError>
    ensures { IfOk result (λ r. r ≡ refusal_of_field fault) }
{
    match fault {
        FieldFault::FieldSize(p, m) => Ok(Refusal::FieldSize(p, m)),
        FieldFault::CodeRange(c) => Ok(Refusal::CodeRange(c)),
        FieldFault::NotMonic(c) => {
            let mut codes = Vec::new(alloc);
            codes.push(c)?;
            Ok(Refusal::NotMonic(Poly::from_codes(codes)))
        }
        FieldFault::NotField(a, b) => Ok(Refusal::NotField(a, b)),
    }
}
