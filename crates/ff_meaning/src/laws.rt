//! Laws of what lines mean, each stated by a function with an empty body.

ghost use Rattle.std.specs.Prelude.{◌≡◌, ◌≢◌};
ghost use Rattle.ff_script.specs.declared.script.Statement.{Statement};
ghost use Rattle.ff_meaning.specs.declared.refusal.Refusal.{Refusal};
ghost use Rattle.ff_meaning.specs.declared.refusal.Refusal.TheVariants.{Memory};
ghost use Rattle.ff_meaning.specs.Bindings.{Bindings};
ghost use Rattle.ff_meaning.specs.SameBindings.{AreSameBindings};
ghost use Rattle.ff_meaning.specs.Refusals.{IsRefusalRow};

/// A law: the rows of a statement tell one refusal at most, which isn't want of memory, and they are the same over the
/// same field and curve.
pub fn one_refusal()
    ensures same { (old : Bindings) (s : Statement) (r t : Refusal)
        → IsRefusalRow old s r → IsRefusalRow old s t → r ≡ t }
    ensures not_memory { (old : Bindings) (s : Statement) (r : Refusal) → IsRefusalRow old s r → r ≢ Memory }
    ensures moved { (old other : Bindings) (s : Statement) (r : Refusal)
        → AreSameBindings old other → IsRefusalRow old s r → IsRefusalRow other s r }
{}
