//! Polynomials and elements as they are spelled: what a reader answers and what is printed. Contracts see them as plain
//! records and lists.

ghost use Rattle.std.specs.Prelude.{◌≡◌, IfOk};

use std::alloc::{AllocError, Global};
use std::marker::Model;

/// A factor of a term.
#[derive(Clone, Copy, Debug, PartialEq, Eq)]
pub enum Factor {
    /// A number, which stands for the code of a constant.
    Code(u32),
    /// A power of x. `x` alone is the power with exponent 1.
    X(u32),
    /// A power of y.
    Y(u32),
}

/// Factors, joined by `*`.
#[derive(Debug, Drop)]
pub struct FactorList {
    /// The factors in the order in which they are written.
    pub factors: Vec<Factor>,
}

impl Model for FactorList {
    ghost use Rattle.std.specs.Prelude.{List};
    ghost use Rattle.ff_text.specs.declared.terms.Factor.{Factor};

    ghost Value = { List Factor };

    ghost view = { λ t. t.factors.items };
}

/// The product of the factors, with the sign before it.
#[derive(Debug, Drop)]
pub struct Term {
    /// A minus is before it.
    pub minus: bool,
    /// What is multiplied.
    pub factors: FactorList,
}

/// A polynomial: the sum of the terms.
#[derive(Debug, Drop)]
pub struct TermList {
    /// The terms in the order in which they are written.
    pub terms: Vec<Term>,
}

impl Model for TermList {
    ghost use Rattle.std.specs.Prelude.{List};
    ghost use Rattle.ff_text.specs.declared.terms.Term.{Term};

    ghost Value = { List Term };

    ghost view = { λ t. t.terms.items };
}

/// Polynomials: numerators at 1, y and so on.
#[derive(Debug, Drop)]
pub struct EntryList {
    /// The polynomials in the order in which they are written.
    pub entries: Vec<TermList>,
}

impl Model for EntryList {
    ghost use Rattle.std.specs.Prelude.{List};
    ghost use Rattle.ff_text.specs.declared.terms.Term.{Term};

    ghost Value = { List (List Term) };

    ghost view = { λ t. t.entries.items };
}

/// An element: numerators in brackets, and a denominator if one is written.
#[derive(Debug, Drop)]
pub struct ElemText {
    /// The numerators.
    pub entries: EntryList,
    /// The denominator, if one is written.
    pub den: Option<TermList>,
}

impl FactorList {
    /// Equal factors, in memory of their own. It takes time in proportion to them.
    pub fn copy(&self, alloc: Global) -> Result<FactorList, AllocError>
        ensures { IfOk result (λ t. t ≡ self.now) }
    {
        let factors = self.factors.as_slice().to_vec(alloc)?;
        Ok(FactorList { factors })
    }
}

impl Term {
    /// An equal term, in memory of its own. It takes time in proportion to it.
    pub fn copy(&self, alloc: Global) -> Result<Term, AllocError>
        ensures { IfOk result (λ t. t ≡ self.now) }
    {
        let factors = self.factors.copy(alloc)?;
        Ok(Term {
            minus: self.minus,
            factors,
        })
    }
}

impl TermList {
    /// Equal terms, in memory of their own. It takes time in proportion to them.
    pub fn copy(&self, alloc: Global) -> Result<TermList, AllocError>
        ensures { IfOk result (λ t. t ≡ self.now) }
    {
        let mut terms = Vec::new(alloc);
        for t in &self.terms {
            terms.push(t.copy(alloc)?)?;
        }
        Ok(TermList { terms })
    }
}

impl EntryList {
    /// Equal polynomials, in memory of their own. It takes time in proportion to them.
    pub fn copy(&self, alloc: Global) -> Result<EntryList, AllocError>
        ensures { IfOk result (λ t. t ≡ self.now) }
    {
        let mut entries = Vec::new(alloc);
        for p in &self.entries {
            entries.push(p.copy(alloc)?)?;
        }
        Ok(EntryList { entries })
    }
}

impl ElemText {
    /// An equal element, in memory of its own. It takes time in proportion to it.
    pub fn copy(&self, alloc: Global) -> Result<ElemText, AllocError>
        ensures { IfOk result (λ t. t ≡ self.now) }
    {
        let entries = self.entries.copy(alloc)?;
        let den = match &self.den {
            Some(d) => Some(d.copy(alloc)?),
            None => None,
        };
        Ok(ElemText { entries, den })
    }
}
