//! Statements as they are spelled.

ghost use Rattle.std.specs.Prelude.{◌≡◌, IfOk};

use ff_text::{ElemText, TermList};
use function_field::Side;
use std::alloc::{AllocError, Global};
use std::marker::Model;

/// The coefficients of a modulus as they are written, lowest first.
#[derive(Debug, Drop)]
pub struct CodeList {
    pub codes: Vec<u32>,
}

impl Model for CodeList {
    ghost use Rattle.std.specs.Prelude.{ℕ, List};

    ghost Value = { List ℕ };

    ghost view = { λ t. t.codes.items };
}

/// A degree and the coefficients of a modulus.
#[derive(Debug, Drop)]
pub struct Modulus {
    pub m: u32,
    pub codes: CodeList,
}

/// The name of a place as it is written: a letter, and then letters, digits or `_`.
#[derive(Debug, Drop)]
pub struct Name {
    pub letters: Vec<u8>,
}

impl Model for Name {
    ghost use Rattle.std.specs.Prelude.{ℕ, List};

    ghost Value = { List ℕ };

    ghost view = { λ n. n.letters.items };
}

/// What places lie over: a polynomial in x as it is written, or infinity.
#[derive(Debug, Drop)]
pub enum Over {
    At(TermList),
    Inf,
}

/// A statement of a script.
#[derive(Debug, Drop)]
pub enum Statement {
    /// `field p`, or `field p m c_0 .. c_m`
    FieldOf { p: u32, tail: Option<Modulus> },
    /// `curve f`
    CurveOf { f: TermList },
    /// `mul a b`
    Mul { a: ElemText, b: ElemText },
    /// `factor g`
    Factor { g: TermList },
    /// `order finite` or `order infinite`
    OrderOf { side: Side },
    /// `places p` or `places inf`
    Places { over: Over },
    /// `place P = p i` or `place P = inf i`
    Place { name: Name, over: Over, index: u32 },
    /// `constants`: the constants of the curve's function field.
    Constants,
    /// `genus`: its genus.
    Genus,
}

impl CodeList {
    /// Equal codes, in memory of their own.
    pub fn copy(&self, alloc: Global) -> Result<CodeList, AllocError>
        ensures { IfOk result (λ t. t ≡ self.now) }
    {
        let codes = self.codes.as_slice().to_vec(alloc)?;
        Ok(CodeList { codes })
    }
}

impl Modulus {
    /// An equal modulus, in memory of its own.
    pub fn copy(&self, alloc: Global) -> Result<Modulus, AllocError>
        ensures { IfOk result (λ t. t ≡ self.now) }
    {
        let codes = self.codes.copy(alloc)?;
        Ok(Modulus { m: self.m, codes })
    }
}

impl Name {
    /// An equal name, in memory of its own.
    pub fn copy(&self, alloc: Global) -> Result<Name, AllocError>
        ensures { IfOk result (λ n. n ≡ self.now) }
    {
        let letters = self.letters.as_slice().to_vec(alloc)?;
        Ok(Name { letters })
    }
}

impl Over {
    /// What is equal, in memory of its own.
    pub fn copy(&self, alloc: Global) -> Result<Over, AllocError>
        ensures { IfOk result (λ o. o ≡ self.now) }
    {
        match self {
            Over::At(terms) => Ok(Over::At(terms.copy(alloc)?)),
            Over::Inf => Ok(Over::Inf),
        }
    }
}

/// An equal tail of `field`.
fn copy_tail(alloc: Global, tail: &Option<Modulus>) -> Result<Option<Modulus>, AllocError>
    ensures { IfOk result (λ t. t ≡ tail.now) }
{
    match tail {
        Some(modulus) => Ok(Some(modulus.copy(alloc)?)),
        None => Ok(None),
    }
}

impl Statement {
    /// An equal statement, in memory of its own.
    pub fn copy(&self, alloc: Global) -> Result<Statement, AllocError>
        ensures { IfOk result (λ t. t ≡ self.now) }
    {
        match self {
            Statement::FieldOf { p, tail } => {
                let tail = copy_tail(alloc, tail)?;
                Ok(Statement::FieldOf { p: *p, tail })
            }
            Statement::CurveOf { f } => {
                let f = f.copy(alloc)?;
                Ok(Statement::CurveOf { f })
            }
            Statement::Mul { a, b } => {
                let a = a.copy(alloc)?;
                let b = b.copy(alloc)?;
                Ok(Statement::Mul { a, b })
            }
            Statement::Factor { g } => {
                let g = g.copy(alloc)?;
                Ok(Statement::Factor { g })
            }
            Statement::OrderOf { side } => Ok(Statement::OrderOf { side: *side }),
            Statement::Places { over } => {
                let over = over.copy(alloc)?;
                Ok(Statement::Places { over })
            }
            Statement::Place { name, over, index } => {
                let name = name.copy(alloc)?;
                let over = over.copy(alloc)?;
                let index = *index;
                Ok(Statement::Place { name, over, index })
            }
            Statement::Constants => Ok(Statement::Constants),
            Statement::Genus => Ok(Statement::Genus),
        }
    }
}
