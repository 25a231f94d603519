//! Reads a polynomial byte by byte.

ghost use Rattle.std.specs.Prelude.{◌≡◌, ◌<◌, IfOk, is_some};
ghost use Rattle.ff_text.specs.Scanning.{mark_of, factor_of, after_blank, after_digit, after_letter, after_raise, after_plain, ended, last_factor, moved, after_star, after_sign, after_minus, scan_step, last_terms, is_whole_position, begun, HasRoom, IsSmallMark, Moves};

use crate::terms::{Factor, FactorList, Term, TermList};
use std::alloc::{AllocError, Global};
use std::mem;

/// What may stand in a polynomial.
#[derive(Clone, Copy)]
pub(crate) struct Rules {
    pub y: bool,
    pub signs: bool,
}

/// What a byte is.
#[derive(Clone, Copy)]
pub(crate) enum Mark {
    Blank,
    Digit(u32),
    X,
    Y,
    Raise,
    Star,
    Plus,
    Minus,
    Other,
}

/// The kind of a factor.
#[derive(Clone, Copy)]
pub(crate) enum Kind {
    Code,
    X,
    Y,
}

/// Where the bytes that were read end.
#[derive(Clone, Copy)]
pub(crate) enum Position {
    /// Before the first byte.
    Begin,
    /// Behind a sign.
    Signed,
    /// Behind a `*`.
    Starred,
    /// Behind a letter.
    Letter(Kind),
    /// Behind a letter and blanks.
    Spaced(Kind),
    /// Behind a letter and `^`.
    Raised(Kind),
    /// In the digits of a factor: how many there are, and their number.
    Digits(Kind, u32, u32),
    /// Behind digits and blanks.
    Behind(Kind, u32),
}

/// The part of a polynomial that was read: its whole terms, then the sign and the whole factors of the next, and where
/// the bytes end.
#[derive(Drop)]
pub(crate) struct Scan {
    pub terms: TermList,
    pub minus: bool,
    pub factors: FactorList,
    pub position: Position,
}

fn classify(b: u8) -> Mark
    ensures is { result ≡ mark_of b }
    ensures small { IsSmallMark result }
{
    match b {
        b' ' | b'\t' | b'\r' => Mark::Blank,
        b'0'..=b'9' => Mark::Digit(u32::from(b - b'0')),
        b'x' => Mark::X,
        b'y' => Mark::Y,
        b'^' => Mark::Raise,
        b'*' => Mark::Star,
        b'+' => Mark::Plus,
        b'-' => Mark::Minus,
        _ => Mark::Other,
    }
}

fn factor(kind: Kind, n: u32) -> Factor
    ensures { result ≡ factor_of kind n }
{
    match kind {
        Kind::Code => Factor::Code(n),
        Kind::X => Factor::X(n),
        Kind::Y => Factor::Y(n),
    }
}

impl Position {
    fn after_blank(self) -> Option<Position>
        ensures { result ≡ after_blank self }
    {
        match self {
            Position::Begin => None,
            Position::Letter(kind) => Some(Position::Spaced(kind)),
            Position::Digits(kind, _, n) => Some(Position::Behind(kind, n)),
            _ => Some(self),
        }
    }

    fn after_digit(self, d: u32) -> Option<Position>
        requires room { HasRoom self }
        requires digit { d < 10 }
        ensures { result ≡ after_digit d self }
    {
        match self {
            Position::Begin | Position::Signed | Position::Starred => Some(Position::Digits(
                Kind::Code,
                1,
                d,
            )),
            Position::Raised(kind) => Some(Position::Digits(kind, 1, d)),
            Position::Digits(kind, count, n) if count < 9 => {
                Some(Position::Digits(kind, count + 1, 10 * n + d))
            }
            _ => None,
        }
    }

    fn after_letter(self, kind: Kind) -> Option<Position>
        ensures { result ≡ after_letter kind self }
    {
        match self {
            Position::Begin | Position::Signed | Position::Starred => Some(Position::Letter(kind)),
            _ => None,
        }
    }

    fn after_raise(self) -> Option<Position>
        ensures { result ≡ after_raise self }
    {
        match self {
            Position::Letter(kind) | Position::Spaced(kind) => Some(Position::Raised(kind)),
            _ => None,
        }
    }

    /// The position after a byte that ends no factor.
    fn after(self, rules: Rules, m: Mark) -> Option<Position>
        requires room { HasRoom self }
        requires digit { IsSmallMark m }
        ensures { result ≡ after_plain rules m self }
    {
        match m {
            Mark::Blank => self.after_blank(),
            Mark::Digit(d) => self.after_digit(d),
            Mark::X => self.after_letter(Kind::X),
            Mark::Y if rules.y => self.after_letter(Kind::Y),
            Mark::Raise => self.after_raise(),
            _ => None,
        }
    }

    /// The factor that may end there.
    fn ended(self) -> Option<Factor>
        ensures { result ≡ ended self }
    {
        match self {
            Position::Letter(kind) | Position::Spaced(kind) => Some(factor(kind, 1)),
            Position::Digits(kind, _, n) | Position::Behind(kind, n) => Some(factor(kind, n)),
            _ => None,
        }
    }

    /// The last factor that was read, if one was read behind the last sign or `*`.
    fn last(self) -> Option<Factor>
        ensures { result ≡ last_factor self }
    {
        match self {
            Position::Raised(kind) => Some(factor(kind, 1)),
            _ => self.ended(),
        }
    }
}

impl Scan {
    pub fn new(alloc: Global) -> Scan
        ensures { result ≡ begun }
    {
        Scan {
            terms: TermList {
                terms: Vec::new(alloc),
            },
            minus: false,
            factors: FactorList {
                factors: Vec::new(alloc),
            },
            position: Position::Begin,
        }
    }

    /// The bytes are a spelling.
    pub fn is_whole(&self) -> bool
        ensures { result ≡ is_whole_position self.now.position }
    {
        matches!(
            self.position,
            Position::Letter(_) | Position::Digits(_, _, _)
        )
    }

    /// The bytes are a spelling and blanks behind it.
    pub fn is_ended(&self) -> bool
        ensures { result ≡ is_some (ended self.now.position) }
    {
        self.position.ended().is_some()
    }

    /// Goes on by a byte, and answers whether it may stand there. If not, nothing changes.
    #[tactic(auto, unfolding(crate::specs::Scanning::scan_step))]
    pub fn step(&mut self, alloc: Global, rules: Rules, b: u8) -> Result<bool, AllocError>
        requires { HasRoom self.old.position }
        ensures { IfOk result (Moves (scan_step rules self.old b) self.old self.new) }
    {
        match classify(b) {
            Mark::Star => self.star(),
            Mark::Plus if rules.signs => self.sign(alloc, false),
            Mark::Minus if rules.signs => self.minus(alloc),
            other => Ok(self.go(self.position.after(rules, other))),
        }
    }

    fn go(&mut self, next: Option<Position>) -> bool
        ensures { Moves (moved self.old next) self.old self.new result }
    {
        match next {
            Some(position) => {
                self.position = position;
                true
            }
            None => false,
        }
    }

    /// A `*` that ends a factor.
    fn star(&mut self) -> Result<bool, AllocError>
        ensures { IfOk result (Moves (after_star self.old) self.old self.new) }
    {
        let Some(f) = self.position.ended() else {
            return Ok(false);
        };
        self.factors.factors.push(f)?;
        self.position = Position::Starred;
        Ok(true)
    }

    /// A sign that ends a term.
    fn sign(&mut self, alloc: Global, minus: bool) -> Result<bool, AllocError>
        ensures { IfOk result (Moves (after_sign minus self.old) self.old self.new) }
    {
        let Some(f) = self.position.ended() else {
            return Ok(false);
        };
        self.factors.factors.push(f)?;
        let none = FactorList {
            factors: Vec::new(alloc),
        };
        let factors = mem::replace(&mut self.factors, none);
        self.terms.terms.push(Term {
            minus: self.minus,
            factors,
        })?;
        self.minus = minus;
        self.position = Position::Signed;
        Ok(true)
    }

    /// A minus that begins the polynomial or ends a term.
    fn minus(&mut self, alloc: Global) -> Result<bool, AllocError>
        ensures { IfOk result (Moves (after_minus self.old self.old.position) self.old self.new) }
    {
        if !matches!(self.position, Position::Begin) {
            return self.sign(alloc, true);
        }
        self.minus = true;
        self.position = Position::Signed;
        Ok(true)
    }

    /// The polynomial of the longest spelling in the bytes, if there is one.
    pub fn into_terms(self) -> Result<Option<TermList>, AllocError>
        ensures { IfOk result (λ t. t ≡ last_terms self) }
    {
        let Scan {
            mut terms,
            minus,
            mut factors,
            position,
        } = self;
        if matches!(position, Position::Begin | Position::Signed) {
            return Ok(if terms.terms.is_empty() {
                None
            } else {
                Some(terms)
            });
        }
        if let Some(f) = position.last() {
            factors.factors.push(f)?;
        }
        terms.terms.push(Term { minus, factors })?;
        Ok(Some(terms))
    }
}
