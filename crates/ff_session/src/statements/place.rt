//! The statement `place`.

ghost use Rattle.std.specs.Prelude.{◌≡◌, ◌≤◌, ◌-◌, length, get_or, IfOk, IfErr, OnOk};
ghost use Rattle.ff_script.specs.Printing.{IsWritableOver};
ghost use Rattle.ff_meaning.specs.Bindings.{HasSmallOver};
ghost use Rattle.ff_meaning.specs.Refusals.{UnlessMemory, IsPlaceRow};
ghost use Rattle.value_theory.specs.Primes.{PrimeValue};
ghost use Rattle.ff_cert.specs.declared.answer.PlaceLines.{PlaceLines};
ghost use Rattle.ff_rr.specs.Frames.{IsFrame};
ghost use Rattle.ff_session.specs.Places.{IsNoNumber};
ghost use Rattle.ff_session.specs.Steps.{IsPlaceRead};

use crate::names::Names;
use crate::statements::places::listed_places;
use ff_cert::{PlaceLines, PlaceList};
use ff_fields::field::SmallField;
use ff_ideal::Prime;
use ff_meaning::{Refusal, base_of};
use ff_rr::Frame;
use ff_script::{Name, Over};
use std::alloc::Global;

/// The place with the number, which is from 1 to the number of places, with its lines.
fn place_at(mut primes: Vec<Prime>, mut list: PlaceList, index: usize) -> (PlaceLines, Prime)
    requires same { length list ≡ length primes.items }
    requires first { 1 ≤ index }
    requires last { index ≤ length primes.items }
    ensures lines { (d : PlaceLines) → result.0 ≡ get_or list (index - 1) d }
    ensures prime { (d : PrimeValue) → result.1 ≡ get_or primes.items (index - 1) d }
{
    let at = index - 1;
    let place = list.places.swap_remove(at);
    (place, primes.swap_remove(at))
}

/// The place with the number among the listed ones, with its lines, or that there is none.
fn chosen(primes: Vec<Prime>, list: PlaceList, index: u32) -> Result<(PlaceLines, Prime), Refusal>
    requires same { length list ≡ length primes.items }
    ensures lines { IfOk result (λ r. (d : PlaceLines) → r.0 ≡ get_or list (index - 1) d) }
    ensures prime { IfOk result (λ r. (d : PrimeValue) → r.1 ≡ get_or primes.items (index - 1) d) }
    ensures first { OnOk result (1 ≤ index) }
    ensures last { OnOk result (index ≤ length list) }
    ensures refused { IfErr result (UnlessMemory (IsNoNumber (length list) index)) }
{
    let Ok(count) = u32::try_from(primes.len()) else {
        return Err(Refusal::Memory);
    };
    if index == 0 || index > count {
        return Err(Refusal::NoSuchPlace(index, count));
    }
    Ok(place_at(primes, list, index as usize))
}

/// The place with the number among all places over a polynomial, or over infinity, with its lines, or why there is
/// none. It takes the time of `places_above`, and the factors of the denominators of the rows.
pub fn named_place<K: SmallField>(
    alloc: Global,
    k: &K,
    frame: &Frame,
    names: &Names,
    name: &Name,
    over: &Over,
    index: u32,
) -> Result<(PlaceLines, Prime), Refusal>
    requires frame { IsFrame (K.field k.now) frame.now }
    requires writable { IsWritableOver over.now }
    requires powers { HasSmallOver over.now }
    ensures place { IfOk result (λ r.
        IsPlaceRead (K.field k.now) frame.now.curve names.now name.now over.now index r.0 r.1) }
    ensures refused { IfErr result (UnlessMemory
        (IsPlaceRow (K.field k.now) (record { curve = frame.now.curve; places = names.now }) name.now over.now index)) }
{
    if names.contains(name) {
        return Err(Refusal::NameTaken(name.copy(alloc)?));
    }
    let base = base_of(alloc, k, frame.curve().fin().n(), over)?;
    let (primes, list) = listed_places(alloc, k, frame, &base)?;
    chosen(primes, list, index)
}
