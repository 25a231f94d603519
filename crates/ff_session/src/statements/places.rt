//! The statement `places`.

ghost use Rattle.std.specs.Prelude.{◌≡◌, [], ◌∷◌, All, IfOk, IfErr};
ghost use Rattle.std.specs.List.{AllZip};
ghost use Rattle.ff_fields.specs.Over.{IsOver};
ghost use Rattle.ff_poly.specs.Words.{IsIrreducibleList};
ghost use Rattle.function_field.specs.declared.side.Side.TheVariants.{Infinite};
ghost use Rattle.function_field.specs.Curves.{IsCurve};
ghost use Rattle.function_field.specs.Limits.{max_degree_of_places};
ghost use Rattle.ff_lattice.specs.Lattices.{IsLatticeValue};
ghost use Rattle.value_theory.specs.IntegralLattices.{presentation};
ghost use Rattle.value_theory.specs.Primes.{PrimeValue};
ghost use Rattle.ff_script.specs.Printing.{IsWritableOver};
ghost use Rattle.ff_meaning.specs.Bindings.{HasSmallOver};
ghost use Rattle.ff_meaning.specs.Refusals.{UnlessMemory, IsBaseRow};
ghost use Rattle.ff_rr.specs.Frames.{IsFrame};
ghost use Rattle.ff_session.specs.Places.{ArePrimesOver, AreLinesOf, AreListedPlaces};
ghost use Rattle.ff_session.specs.Steps.{ArePlacesRead};

use ff_algebra::curve::Curve;
use ff_cert::{PlaceLines, PlaceList, degree_of_places};
use ff_fields::field::SmallField;
use ff_ideal::Prime;
use ff_meaning::{Base, Refusal, base_of};
use ff_places::places_above;
use ff_rr::Frame;
use ff_script::Over;
use ff_written::written_rows;
use std::alloc::{AllocError, Global};

/// The lines of a place of the side.
fn lines_of<K: SmallField>(
    alloc: Global,
    k: &K,
    curve: &Curve,
    prime: &Prime,
) -> Result<PlaceLines, AllocError>
    requires curve { IsCurve (K.field k.now) curve.now }
    requires form { IsLatticeValue (K.field k.now).ops (presentation curve.now prime.now.side).n prime.now.rows }
    ensures { IfOk result (AreLinesOf (K.field k.now) curve.now prime.now.side prime.now) }
{
    let rows = written_rows(alloc, k, curve, prime.side(), prime.rows())?;
    Ok(PlaceLines {
        number: u64::from(prime.number()),
        e: u64::from(prime.e()),
        degree: u64::from(prime.degree()),
        rows,
    })
}

/// The lines of each place.
fn lines_of_each<K: SmallField>(
    alloc: Global,
    k: &K,
    curve: &Curve,
    primes: &[Prime],
) -> Result<PlaceList, AllocError>
    requires curve { IsCurve (K.field k.now) curve.now }
    requires forms { All (λ (P : PrimeValue).
        IsLatticeValue (K.field k.now).ops (presentation curve.now P.side).n P.rows) primes.now }
    ensures { IfOk result (λ l.
        AllZip (λ (P : PrimeValue). AreLinesOf (K.field k.now) curve.now P.side P) primes.now l) }
{
    let mut places = Vec::new(alloc);
    for prime in primes {
        places.push(lines_of(alloc, k, curve, prime)?)?;
    }
    Ok(PlaceList { places })
}

/// All places over a polynomial, or over infinity, as primes of the order of their side. It takes the time of
/// `places_above`.
fn primes_over<K: SmallField>(
    alloc: Global,
    k: &K,
    frame: &Frame,
    base: &Base,
) -> Result<Vec<Prime>, AllocError>
    requires frame { IsFrame (K.field k.now) frame.now }
    requires codes { IsOver (K.field k.now).ops base.now.p }
    requires irreducible { IsIrreducibleList (K.field k.now).ops base.now.p }
    requires infinite { base.now.side ≡ Infinite → base.now.p ≡ 0 ∷ 1 ∷ [] }
    ensures { IfOk result (λ v. ArePrimesOver (K.field k.now) frame.now.curve base.now.side base.now.p v.items) }
{
    let o = frame.order(base.side);
    places_above(alloc, k, frame.curve(), base.side, o, &base.p)
}

/// All places over a polynomial, or over infinity, with their lines.
pub fn listed_places<K: SmallField>(
    alloc: Global,
    k: &K,
    frame: &Frame,
    base: &Base,
) -> Result<(Vec<Prime>, PlaceList), AllocError>
    requires frame { IsFrame (K.field k.now) frame.now }
    requires codes { IsOver (K.field k.now).ops base.now.p }
    requires irreducible { IsIrreducibleList (K.field k.now).ops base.now.p }
    requires infinite { base.now.side ≡ Infinite → base.now.p ≡ 0 ∷ 1 ∷ [] }
    ensures { IfOk result (λ r.
        AreListedPlaces (K.field k.now) frame.now.curve base.now.side base.now.p r.0.items r.1) }
{
    let primes = primes_over(alloc, k, frame, base)?;
    let list = lines_of_each(alloc, k, frame.curve(), primes.as_slice())?;
    let degree = degree_of_places(list.places.as_slice());
    prove!(degree <= usize::MAX);
    Ok((primes, list))
}

/// The number of all places over a polynomial, or over infinity, and their lines, or why there are none. It takes the
/// time of `places_above`, and the factors of the denominators of the rows.
pub fn all_places<K: SmallField>(
    alloc: Global,
    k: &K,
    frame: &Frame,
    over: &Over,
) -> Result<(u64, PlaceList), Refusal>
    requires frame { IsFrame (K.field k.now) frame.now }
    requires writable { IsWritableOver over.now }
    requires powers { HasSmallOver over.now }
    ensures places { IfOk result (λ r. ArePlacesRead (K.field k.now) frame.now.curve over.now r.0 r.1) }
    ensures refused { IfErr result (UnlessMemory
        (IsBaseRow (K.field k.now).ops frame.now.curve.fin.n max_degree_of_places over.now)) }
{
    let base = base_of(alloc, k, frame.curve().fin().n(), over)?;
    let (_, list) = listed_places(alloc, k, frame, &base)?;
    Ok((list.places.len() as u64, list))
}
