//! Fields from text.

use crate::read::{BAD, numbers};
use ff_fields::fault::FieldFault;
use ff_fields::fields::Field;
use ff_fields::prime::PrimeField;
use ff_fields::residue::ResidueField;
use ff_fields::table::TableField;
use std::alloc::{AllocError, Global};

/// The field of the numbers, or its fault: a prime, or a prime, a degree, and a modulus of one code more than the
/// degree.
/// None where there are others.
pub fn field_of(numbers: &[u32]) -> Option<Result<Field, FieldFault>> {
    if numbers.len() == 1 {
        return Some(PrimeField::new(numbers[0]).map(Field::Prime));
    }
    if numbers.len() < 3 || numbers.len() - 3 != numbers[1] as usize {
        return None;
    }
    Some(ResidueField::new(numbers[0], numbers[1], &numbers[2..]).map(Field::Residue))
}

/// The field of the numbers by its definition, where there is one.
pub fn plain(alloc: Global, text: &str) -> Result<Field, AllocError> {
    let found = numbers(alloc, text)?;
    let Some(made) = field_of(found.as_slice()) else {
        return Err(BAD);
    };
    made.map_err(|_| BAD)
}

/// The field of the numbers by tables of powers and logarithms, where it has them.
pub fn tabled(alloc: Global, text: &str) -> Result<Option<TableField>, AllocError> {
    TableField::new(alloc, &plain(alloc, text)?)
}

/// The field of the text, where there is one: of the numbers, or of what stands behind `tables`, by tables.
pub fn field(alloc: Global, text: &str) -> Result<Field, AllocError> {
    let Some(numbers) = text.strip_prefix("tables ") else {
        return plain(alloc, text);
    };
    Ok(Field::Table(tabled(alloc, numbers)?.ok_or(BAD)?))
}
