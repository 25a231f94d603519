//! What is asked of a curve with its maximal orders.

ghost use Rattle.ff_rr.specs.Frames.{IsFrame};

use crate::texts::{elements_text, numbers_text, written_text};
use case_values::print::worded;
use case_values::read::BAD;
use ff_fields::field::SmallField;
use ff_rr::{Frame, SpaceBasis, constants, genus, idempotents, idempotents_of};
use ff_split::SplitBasis;
use std::alloc::{AllocError, Global};

// The degrees, a colon, and the functions.
fn split_text(alloc: Global, s: &SplitBasis) -> Result<String, AllocError> {
    let degrees = numbers_text(alloc, s.degrees())?;
    let basis = elements_text(alloc, s.basis())?;
    format!(in alloc; "{degrees}: {basis}")
}

// The basis of both orders, from which the constants are read.
fn split_of<K: SmallField>(alloc: Global, k: &K, f: &Frame) -> Result<String, AllocError>
    requires { IsFrame (K.field k.now) f.now }
{
    let s = constants(alloc, k, f)?;
    split_text(alloc, s.split())
}

// The dimension, a colon, and the functions.
fn space_text(alloc: Global, s: &SpaceBasis) -> Result<String, AllocError> {
    let basis = elements_text(alloc, s.functions())?;
    format!(in alloc; "{}: {basis}", s.space().len())
}

// The constants, by their copy.
fn constants_of<K: SmallField>(alloc: Global, k: &K, f: &Frame) -> Result<String, AllocError>
    requires { IsFrame (K.field k.now) f.now }
{
    let copy = f.copy(alloc)?;
    let s = constants(alloc, k, &copy)?;
    space_text(alloc, &s.copy(alloc)?)
}

// The genus, where the functions are a field.
fn genus_of<K: SmallField>(alloc: Global, k: &K, f: &Frame) -> Result<String, AllocError>
    requires { IsFrame (K.field k.now) f.now }
{
    let s = constants(alloc, k, f)?;
    if idempotents_of(alloc, k, f, &s)?.is_empty() {
        worded(alloc, "genus", u64::from(genus(k, f, &s)))
    } else {
        "no field".to_string(alloc)
    }
}

/// `split`, `constants`, `genus` or `idempotents` of a curve with its maximal orders.
pub fn space_line<K: SmallField>(
    alloc: Global,
    k: &K,
    word: &str,
    f: &Frame,
) -> Result<String, AllocError>
    requires { IsFrame (K.field k.now) f.now }
{
    match word {
        "split" => split_of(alloc, k, f),
        "constants" => constants_of(alloc, k, f),
        "genus" => genus_of(alloc, k, f),
        "idempotents" => {
            let list = idempotents(alloc, k, f)?;
            written_text(alloc, list.as_slice())
        },
        _ => Err(BAD),
    }
}
