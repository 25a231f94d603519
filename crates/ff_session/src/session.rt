//! Sessions: the block of the next statement.

ghost use Rattle.std.specs.Prelude.{◌≡◌, ◌≤◌, IfOk, IfErr, OnErr};
ghost use Rattle.function_field.specs.Limits.{max_output};
ghost use Rattle.ff_script.specs.Printing.{IsWritable};
ghost use Rattle.ff_meaning.specs.Bindings.{nothing, IsInPlace, HasSmallPowers};
ghost use Rattle.ff_meaning.specs.Refusals.{UnlessMemory};
ghost use Rattle.ff_cert.specs.Blocks.{IsTextRow};
ghost use Rattle.ff_session.specs.Sessions.{IsStep, IsRefusedAs};
ghost use Rattle.ff_session.specs.Steps.{IsBlock};

use crate::bindings::Bindings;
use ff_cert::{Answer, degree, push_answer, push_echo};
use ff_meaning::Refusal;
use ff_script::Statement;
use std::alloc::{AllocError, Global};
use std::marker::Model;

/// The greatest degree of a polynomial in an answer.
const MAX_ANSWER_DEGREE: usize = 1024;

/// The most bytes that a run may write.
const MAX_OUTPUT: u64 = 268_435_456;

/// What the rest of a run writes at most behind a block: its end, or nothing.
const END: u64 = 32;

/// What the statements so far have bound, whether the texts are bare, and how many bytes were printed so far.
#[derive(Drop)]
pub struct Session {
    bindings: Bindings,
    bare: bool,
    printed: u64,
    alloc: Global,
}

impl Model for Session {
    ghost use Rattle.std.specs.Prelude.{◌≤◌};
    ghost use Rattle.function_field.specs.Limits.{max_output};
    ghost use Rattle.ff_cert.specs.Blocks.{SessionValue};

    ghost Value = { SessionValue };

    ghost view = { λ s. record { bindings = s.bindings; bare = s.bare; printed = s.printed } };

    ghost invariant = { λ s. s.printed ≤ max_output };
}

impl Session {
    /// Nothing is bound, and so many bytes were printed. No memory is taken.
    pub fn new(alloc: Global, bare: bool, printed: u64) -> Session
        requires { printed ≤ max_output }
        ensures { result ≡ record { bindings = nothing; bare = bare; printed = printed } }
    {
        Session {
            bindings: Bindings::new(),
            bare,
            printed,
            alloc,
        }
    }

    /// An equal session, in memory of its own.
    pub fn copy(&self) -> Result<Session, AllocError>
        ensures { IfOk result (λ s. s ≡ self.now) }
    {
        let bindings = self.bindings.copy(self.alloc)?;
        Ok(Session {
            bindings,
            bare: self.bare,
            printed: self.printed,
            alloc: self.alloc,
        })
    }

    /// The text of the statement's block, or why there is none. The statement has a spelling and stands in its place.
    /// After a refusal the session is as before. A product takes the square of the degrees, and the factors of its
    /// denominator; a curve, some hundred products; factors, what `factor` takes; an order, what `maximal_order` takes;
    /// places, what `maximal_order` and `places_above` take.
    pub fn step(&mut self, s: &Statement) -> Result<Vec<u8>, Refusal>
        requires in_place { IsInPlace self.old.bindings s.now }
        requires spelled { IsWritable s.now }
        requires powers { HasSmallPowers s.now }
        ensures block { IfOk result (λ text. IsStep self.old s.now text.items self.new) }
        ensures refused { IfErr result (IsRefusedAs self.old s.now) }
        ensures unchanged { OnErr result (self.new ≡ self.old) }
    {
        let (answer, change) = self.bindings.answer(self.alloc, s)?;
        let text = self.block(s, &answer)?;
        self.bindings.take(self.alloc, change)?;
        self.printed += text.len() as u64;
        Ok(text)
    }

    /// The text of the statement's block with the answer, or why it may not be printed.
    fn block(&self, s: &Statement, answer: &Answer) -> Result<Vec<u8>, Refusal>
        ensures block { IfOk result (λ text. IsBlock self.now s.now answer.now text.items) }
        ensures refused { IfErr result (UnlessMemory (IsTextRow self.now s.now answer.now)) }
    {
        let degree = degree(answer);
        if degree > MAX_ANSWER_DEGREE {
            return Err(Refusal::LimitDegree(degree));
        }
        let mut text = Vec::new(self.alloc);
        push_echo(&mut text, s)?;
        push_answer(&mut text, answer)?;
        let output = self.printed + text.len() as u64 + END;
        if output > MAX_OUTPUT {
            return Err(Refusal::LimitOutput(output));
        }
        Ok(text)
    }
}
