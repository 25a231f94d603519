//! Laws of splits, each stated by a function with an empty body.

ghost use Rattle.std.specs.Prelude.{◌≡◌, map, All};
ghost use Rattle.ff_fields.specs.Field.{CodeField};
ghost use Rattle.function_field.specs.Values.{function_of};
ghost use Rattle.function_field.specs.Curves.{CurveValue, IsCurve};
ghost use Rattle.ff_lattice.specs.Lattices.{LatticeValue, IsLatticeValue};
ghost use Rattle.ff_split.specs.Splits.{SplitValue, IsLowestElem, IsSplitForm};

/// A law: the split of two lattices has one form. Its functions and degrees are one list each, and so are the elements
/// where they are in lowest terms.
pub fn split_form_law()
    ensures functions { (k : CodeField) (c : CurveValue) (fin inf : LatticeValue) (s t : SplitValue) → IsCurve k c
        → IsLatticeValue k.ops c.inf.n inf → IsSplitForm k c fin inf s → IsSplitForm k c fin inf t
        → map (function_of k c.fin) s.basis ≡ map (function_of k c.fin) t.basis }
    ensures degrees { (k : CodeField) (c : CurveValue) (fin inf : LatticeValue) (s t : SplitValue) → IsCurve k c
        → IsLatticeValue k.ops c.inf.n inf → IsSplitForm k c fin inf s → IsSplitForm k c fin inf t
        → s.degrees ≡ t.degrees }
    ensures values { (k : CodeField) (c : CurveValue) (fin inf : LatticeValue) (s t : SplitValue) → IsCurve k c
        → IsLatticeValue k.ops c.inf.n inf → IsSplitForm k c fin inf s → IsSplitForm k c fin inf t
        → All (IsLowestElem k.ops c.fin.n) s.basis → All (IsLowestElem k.ops c.fin.n) t.basis → s ≡ t }
{}
