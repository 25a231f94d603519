//! Primes by the texts of their rows, and their numbers.

ghost use Rattle.std.specs.Prelude.{◌≡◌, ◌↔◌, All, IfOk, OnOk, IsTrue};
ghost use Rattle.std.specs.List.{AllZip};
ghost use Rattle.function_field.specs.Curves.{IsCurve};
ghost use Rattle.ff_falg.specs.Idempotents.{elements_of};
ghost use Rattle.ff_lattice.specs.Lattices.{IsLatticeValue};
ghost use Rattle.ff_written.specs.TextOrder.{HasRowTexts, IsBeforeTexts, texts_of};
ghost use Rattle.value_theory.specs.IntegralLattices.{presentation};
ghost use Rattle.value_theory.specs.Primes.{PrimeValue};
ghost use Rattle.ff_places.specs.Numbers.{NumberedFrom};
ghost use Rattle.ff_places.specs.Steps.{IsPutInto, AreListed, IsNumbered};

use ff_algebra::Side;
use ff_algebra::curve::Curve;
use ff_fields::field::SmallField;
use ff_ideal::Prime;
use ff_lattice::Lattice;
use ff_text::Written;
use ff_text::printed::elem_text;
use ff_written::{is_before_text, written_rows};
use std::alloc::{AllocError, Global};
use std::marker::Model;

/// A prime with the texts of its rows.
#[derive(Drop)]
pub(crate) struct Listed {
    texts: Vec<Vec<u8>>,
    prime: Prime,
}

impl Model for Listed {
    ghost use Rattle.ff_falg.specs.Idempotents.{elements_of};
    ghost use Rattle.ff_places.specs.Steps.{ListedPrime};

    ghost Value = { ListedPrime };

    ghost view = { λ l. record { texts = elements_of l.texts.items; prime = l.prime } };
}

/// The texts of written functions.
fn texts(alloc: Global, rows: &[Written]) -> Result<Vec<Vec<u8>>, AllocError>
    ensures { IfOk result (λ ts. elements_of ts.items ≡ texts_of rows.now) }
{
    let mut texts = Vec::new(alloc);
    for z in rows {
        texts.push(elem_text(alloc, z.num(), z.den())?)?;
    }
    Ok(texts)
}

/// The texts of the rows of a lattice of the side, as they are written.
fn row_texts<K: SmallField>(
    alloc: Global,
    k: &K,
    c: &Curve,
    side: Side,
    l: &Lattice,
) -> Result<Vec<Vec<u8>>, AllocError>
    requires curve { IsCurve (K.field k.now) c.now }
    requires form { IsLatticeValue (K.field k.now).ops (presentation c.now side).n l.now }
    ensures { IfOk result (λ ts. HasRowTexts (K.field k.now) c.now side l.now (elements_of ts.items)) }
{
    let list = written_rows(alloc, k, c, side, l)?;
    texts(alloc, list.rows.as_slice())
}

/// Whether the first list comes before the second: at the first difference its text does, or it ends there.
fn is_before(a: &[Vec<u8>], b: &[Vec<u8>]) -> bool
    ensures { IsTrue result ↔ IsBeforeTexts (elements_of a.now) (elements_of b.now) }
{
    let end = a.len().min(b.len());
    for i in 0..end {
        if is_before_text(a[i].as_slice(), b[i].as_slice()) {
            return true;
        }
        if is_before_text(b[i].as_slice(), a[i].as_slice()) {
            return false;
        }
    }
    a.len() < b.len()
}

/// Puts a prime before the first one that it comes before.
fn put(list: &mut Vec<Listed>, x: Listed) -> Result<(), AllocError>
    ensures { OnOk result (IsPutInto list.old.items x list.new.items) }
{
    for i in 0..list.len() {
        if is_before(x.texts.as_slice(), list[i].texts.as_slice()) {
            list.insert(i, x)?;
            return Ok(());
        }
    }
    list.push(x)?;
    Ok(())
}

/// The prime with the texts of its rows.
fn with_texts<K: SmallField>(
    alloc: Global,
    k: &K,
    c: &Curve,
    side: Side,
    prime: &Prime,
) -> Result<Listed, AllocError>
    requires curve { IsCurve (K.field k.now) c.now }
    requires form { IsLatticeValue (K.field k.now).ops (presentation c.now side).n prime.now.rows }
    ensures prime { IfOk result (λ l. l.prime ≡ prime.now) }
    ensures texts { IfOk result (λ l. HasRowTexts (K.field k.now) c.now side l.prime.rows l.texts) }
{
    let texts = row_texts(alloc, k, c, side, prime.rows())?;
    let prime = prime.copy(alloc)?;
    Ok(Listed { texts, prime })
}

/// The primes by the texts of their rows.
pub(crate) fn ordered<K: SmallField>(
    alloc: Global,
    k: &K,
    c: &Curve,
    side: Side,
    primes: &[Prime],
) -> Result<Vec<Listed>, AllocError>
    requires curve { IsCurve (K.field k.now) c.now }
    requires forms { All (λ (q : PrimeValue). IsLatticeValue (K.field k.now).ops (presentation c.now side).n q.rows)
        primes.now }
    ensures { IfOk result (λ v. AreListed (K.field k.now) c.now side primes.now v.items) }
{
    let mut list = Vec::new(alloc);
    for prime in primes {
        let x = with_texts(alloc, k, c, side, prime)?;
        put(&mut list, x)?;
    }
    Ok(list)
}

/// The listed primes with the numbers 1, 2, and so on. A number that isn't below 2^32 is want of memory.
pub(crate) fn numbered(alloc: Global, list: &[Listed]) -> Result<Vec<Prime>, AllocError>
    ensures primes { IfOk result (λ v. AllZip IsNumbered list.now v.items) }
    ensures numbers { IfOk result (λ v. NumberedFrom 1 v.items) }
{
    let mut primes = Vec::new(alloc);
    let mut number: u32 = 0;
    for l in list {
        let Some(next) = number.checked_add(1) else {
            return Err(AllocError);
        };
        number = next;
        let mut prime = l.prime.copy(alloc)?;
        prime.renumber(number);
        primes.push(prime)?;
    }
    Ok(primes)
}
