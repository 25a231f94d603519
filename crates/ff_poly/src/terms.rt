//! Polynomials in x and y as lists of terms.

ghost use Rattle.std.specs.Prelude.{◌≡◌, ℕ, ◌<◌, All, IfOk, OnOk};
ghost use Rattle.ff_poly.specs.TermWords.{IsTerms, IsUpTo, IsMerged, IsAdded, code_at};

use ff_fields::field::SmallField;
use std::alloc::{AllocError, Global};
use std::marker::Model;

/// A polynomial in x and y: the exponent of y, the exponent of x and the code of each term, strictly ascending by the
/// exponents. No code is 0.
#[derive(Debug, Drop)]
pub struct Terms {
    list: Vec<(u64, u64, u32)>,
}

impl Model for Terms {
    ghost use Rattle.std.specs.Prelude.{List, ℕ};
    ghost use Rattle.ff_poly.specs.TermWords.{IsTerms};

    ghost Value = { List (ℕ × ℕ × ℕ) };

    ghost view = { λ t. t.list.items };

    ghost invariant = { λ t. IsTerms t.list.items };
}

impl Terms {
    /// The terms of a list in any order: codes at the same exponents are added, and zeros are dropped. It takes the
    /// time of a sort.
    pub fn from_list<K: SmallField>(
        alloc: Global,
        k: &K,
        list: &[(u64, u64, u32)],
    ) -> Result<Terms, AllocError>
        requires list_in { All (λ t. t.2 < (K.field k.now).size) list.now }
        ensures codes { let ops = (K.field k.now).ops in
            IfOk result (λ terms. (i j : ℕ) → code_at ops i j terms ≡ code_at ops i j list.now) }
        ensures in_range { IfOk result (All (λ t. t.2 < (K.field k.now).size)) }
        ensures terms { IfOk result IsTerms }
    {
        let mut sorted = list.to_vec(alloc)?;
        sorted.sort_unstable();
        let mut terms = Vec::new(alloc);
        for i in 0..sorted.len() {
            add_term(k, &mut terms, sorted[i])?;
        }
        Ok(Terms { list: terms })
    }

    /// The terms, ascending. No memory is taken.
    pub fn list(&self) -> &[(u64, u64, u32)]
        ensures list { result.now ≡ self.now }
        ensures terms { IsTerms self.now }
    {
        self.list.as_slice()
    }

    /// Equal terms, in memory of their own.
    pub fn copy(&self, alloc: Global) -> Result<Terms, AllocError>
        ensures { IfOk result (λ t. t ≡ self.now) }
    {
        let list = self.list.as_slice().to_vec(alloc)?;
        Ok(Terms { list })
    }
}

/// Takes the last term away where it has the exponents of the new one, and answers the code that stands there then.
fn merged_code<K: SmallField>(
    k: &K,
    terms: &mut Vec<(u64, u64, u32)>,
    term: (u64, u64, u32),
) -> Result<u32, AllocError>
    requires terms_are { IsTerms terms.old.items }
    requires terms_in { All (λ t. t.2 < (K.field k.now).size) terms.old.items }
    requires term_in { term.2 < (K.field k.now).size }
    requires last { All (λ t. IsUpTo t term) terms.old.items }
    ensures merged { IfOk result (λ code. IsMerged (K.field k.now).ops terms.old.items term terms.new.items code) }
{
    let Some(last) = terms.pop() else {
        return Ok(term.2);
    };
    if last.0 != term.0 || last.1 != term.1 {
        terms.push(last)?;
        return Ok(term.2);
    }
    Ok(k.add(last.2, term.2))
}

/// Adds a term whose exponents no term's exceed.
fn add_term<K: SmallField>(
    k: &K,
    terms: &mut Vec<(u64, u64, u32)>,
    term: (u64, u64, u32),
) -> Result<(), AllocError>
    requires terms_are { IsTerms terms.old.items }
    requires terms_in { All (λ t. t.2 < (K.field k.now).size) terms.old.items }
    requires term_in { term.2 < (K.field k.now).size }
    requires last { All (λ t. IsUpTo t term) terms.old.items }
    ensures { OnOk result (IsAdded (K.field k.now).ops terms.old.items term terms.new.items) }
{
    let code = merged_code(k, terms, term)?;
    if code != 0 {
        terms.push((term.0, term.1, code))?;
    }
    Ok(())
}
