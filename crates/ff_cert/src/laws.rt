//! Laws of answers and blocks, each stated by a function with an empty body.

ghost use Rattle.std.specs.Prelude.{◌≡◌};
ghost use Rattle.ff_script.specs.declared.script.Statement.{Statement};
ghost use Rattle.ff_meaning.specs.declared.refusal.Refusal.{Refusal};
ghost use Rattle.ff_meaning.specs.Bindings.{Bindings};
ghost use Rattle.ff_meaning.specs.SameBindings.{AreSameBindings};
ghost use Rattle.ff_cert.specs.declared.answer.Answer.{Answer};
ghost use Rattle.ff_cert.specs.Answers.{Answers};
ghost use Rattle.ff_cert.specs.Blocks.{SessionValue, Refuses, Takes};
ghost use Rattle.ff_cert.specs.SameSessions.{AreSameSessions};

/// A law: over the same field and curve a statement has one true answer at most, and binds the same.
pub fn one_answer()
    ensures answer { (old other next after : Bindings) (s : Statement) (a b : Answer)
        → AreSameBindings old other → Answers old s a next → Answers other s b after → a ≡ b }
    ensures bindings { (old other next after : Bindings) (s : Statement) (a b : Answer)
        → AreSameBindings old other → Answers old s a next → Answers other s b after → AreSameBindings next after }
{}

/// A law: a session takes one block of a statement at most, or refuses it in one way, and not both.
pub fn one_block()
    ensures answer { (old other new after : SessionValue) (s : Statement) (a b : Answer)
        → AreSameSessions old other → Takes old s a new → Takes other s b after → a ≡ b }
    ensures session { (old other new after : SessionValue) (s : Statement) (a b : Answer)
        → AreSameSessions old other → Takes old s a new → Takes other s b after → AreSameSessions new after }
    ensures refusal { (old other : SessionValue) (s : Statement) (r t : Refusal)
        → AreSameSessions old other → Refuses old s r → Refuses other s t → r ≡ t }
    ensures not_both { (old other new : SessionValue) (s : Statement) (a : Answer) (r : Refusal)
        → AreSameSessions old other → Takes old s a new → ¬ Refuses other s r }
{}
