//! A field by tables beside the same field by its definition.

ghost use Rattle.std.specs.Prelude.{◌<◌};

use case_values::fields::{plain, tabled};
use case_values::print::worded;
use case_values::read::{BAD, numbers};
use ff_fields::field::SmallField;
use std::alloc::{AllocError, Global};

// The most elements of a field of which all codes are compared.
const FEW: u32 = 256;

// Have the two fields the same sum, difference and product?
fn same_of_two<K: SmallField, T: SmallField>(k: &K, t: &T, a: u32, b: u32) -> bool {
    if a >= k.size() || b >= k.size() || a >= t.size() || b >= t.size() {
        return false;
    }
    k.add(a, b) == t.add(a, b) && k.sub(a, b) == t.sub(a, b) && k.mul(a, b) == t.mul(a, b)
}

// Have the two fields the same negative, and the same inverse where there is one?
fn same_of_one<K: SmallField, T: SmallField>(k: &K, t: &T, a: u32) -> bool {
    if a >= k.size() || a >= t.size() {
        return false;
    }
    k.neg(a) == t.neg(a) && (a == 0 || k.inv(a) == t.inv(a))
}

// With how many of the codes has a the same sums, differences and products in both? None where its negative or inverse
// differs.
fn count_at<K: SmallField, T: SmallField>(k: &K, t: &T, a: u32, codes: &[u32]) -> u64 {
    if !same_of_one(k, t, a) {
        return 0;
    }
    let mut found: u64 = 0;
    for b in codes {
        if same_of_two(k, t, a, *b) {
            found = found.saturating_add(1);
        }
    }
    found
}

fn count<K: SmallField, T: SmallField>(k: &K, t: &T, codes: &[u32]) -> u64 {
    let mut found: u64 = 0;
    for a in codes {
        found = found.saturating_add(count_at(k, t, *a, codes));
    }
    found
}

// The codes of the text, or all codes of a small field.
fn codes<K: SmallField>(alloc: Global, k: &K, text: &str) -> Result<Vec<u32>, AllocError> {
    let mut found = numbers(alloc, text)?;
    if found.is_empty() && k.size() <= FEW {
        for a in 0..k.size() {
            found.push(a)?;
        }
    }
    Ok(found)
}

/// The number of pairs of the codes, or of all codes where there are none, at which a field by tables and the same
/// field by its definition have the same sum, difference and product, and the same negative and inverse of the first.
pub fn agree_line(alloc: Global, name: &str, text: &str) -> Result<String, AllocError> {
    let k = plain(alloc, name)?;
    let t = tabled(alloc, name)?.ok_or(BAD)?;
    let codes = codes(alloc, &k, text)?;
    worded(alloc, "pairs", count(&k, &t, codes.as_slice()))
}
