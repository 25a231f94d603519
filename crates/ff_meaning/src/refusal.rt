//! Why a statement isn't answered, and the line that says so.

ghost use Rattle.std.specs.Prelude.{◌≡◌, ◌≢◌, ◌↔◌, ◌++◌, IsTrue, IfOk, OnOk, decimal};
ghost use Rattle.ff_text.specs.Printed.{poly_text, elem_text};
ghost use Rattle.ff_meaning.specs.declared.refusal.Refusal.TheVariants.{Memory};
ghost use Rattle.ff_meaning.specs.Texts.{refusal_text, refusal_words, one_value, two_values};

use ff_algebra::curve::CurveFault;
use ff_poly::Poly;
use ff_script::Name;
use ff_text::number::push_number;
use ff_text::printed::{Written, push_elem, push_poly};
use std::alloc::{AllocError, AllocFailed, Global};

/// Why a statement isn't answered, with the values that the refusal's line tells.
#[derive(Debug, Drop)]
pub enum Refusal {
    /// The characteristic p and the degree m: p isn't one of 2, 3, 5, 7, 11 and 13, m is 0, or p to the m is above
    /// 65,536.
    FieldSize(u32, u32),
    /// Two codes that aren't 0, with the product 0.
    NotField(u32, u32),
    /// The degree in y of a curve, which isn't from 2 to 4. That of 0 counts as 0.
    LimitY(u64),
    /// The greatest degree in x, which is above 32 in a curve, or above 512 in an element or a polynomial to factor.
    LimitX(u64),
    /// The top coefficient, which isn't 1: a code of a modulus as a constant, or a polynomial in x of a curve.
    NotMonic(Poly),
    /// The discriminant of the curve is 0.
    NotSeparable,
    /// The degree of the discriminant, which is above 64.
    LimitDisc(usize),
    /// c·n·(n-1), which is above 224, for the curve's infinity number c and its degree n in y.
    LimitInf(u32),
    /// The functions of the curve are no field: the idempotent other than 0 and 1 whose text is the first.
    Reducible(Written),
    /// The name, which is bound already.
    NameTaken(Name),
    /// n times the degree of a polynomial over which places are asked for, which is above 512, for the degree n of the
    /// curve in y. The degree of 0 counts as 0.
    LimitPlace(u64),
    /// Why a polynomial isn't irreducible and monic: the polynomial itself where it is constant, else its top
    /// coefficient where that isn't 1, else its first irreducible factor.
    NotIrreducible(Poly),
    /// The number that was asked for, which is 0 or above the number of places; and that number.
    NoSuchPlace(u32, u32),
    /// A written code that is the size of the field or more.
    CodeRange(u32),
    /// The number of an element's entries, which isn't the degree of the curve in y.
    Length(usize),
    /// A denominator is 0, or the polynomial to factor is.
    Zero,
    /// The greatest degree in the answer, which is above 1,024.
    LimitDegree(usize),
    /// The bytes that would have been written at most by the end, which are above 268,435,456.
    LimitOutput(u64),
    /// Memory ran out.
    Memory,
}

impl Refusal {
    /// Is it want of memory, which has no line?
    pub fn is_memory(&self) -> bool
        ensures { IsTrue result ↔ (self.now ≡ Memory) }
    {
        match self {
            Refusal::Memory => true,
            _ => false,
        }
    }

    /// An equal refusal, in memory of its own.
    pub fn copy(&self, alloc: Global) -> Result<Refusal, AllocError>
        ensures { IfOk result (λ e. e ≡ self.now) }
    {
        match self {
            Refusal::FieldSize(p, m) => Ok(Refusal::FieldSize(*p, *m)),
            Refusal::NotField(a, b) => Ok(Refusal::NotField(*a, *b)),
            Refusal::LimitY(n) => Ok(Refusal::LimitY(*n)),
            Refusal::LimitX(d) => Ok(Refusal::LimitX(*d)),
            Refusal::NotMonic(top) => Ok(Refusal::NotMonic(top.copy(alloc)?)),
            Refusal::NotSeparable => Ok(Refusal::NotSeparable),
            Refusal::LimitDisc(d) => Ok(Refusal::LimitDisc(*d)),
            Refusal::LimitInf(d) => Ok(Refusal::LimitInf(*d)),
            Refusal::Reducible(z) => Ok(Refusal::Reducible(z.copy(alloc)?)),
            Refusal::NameTaken(name) => Ok(Refusal::NameTaken(name.copy(alloc)?)),
            Refusal::LimitPlace(d) => Ok(Refusal::LimitPlace(*d)),
            Refusal::NotIrreducible(h) => Ok(Refusal::NotIrreducible(h.copy(alloc)?)),
            Refusal::NoSuchPlace(i, r) => Ok(Refusal::NoSuchPlace(*i, *r)),
            Refusal::CodeRange(c) => Ok(Refusal::CodeRange(*c)),
            Refusal::Length(n) => Ok(Refusal::Length(*n)),
            Refusal::Zero => Ok(Refusal::Zero),
            Refusal::LimitDegree(d) => Ok(Refusal::LimitDegree(*d)),
            Refusal::LimitOutput(n) => Ok(Refusal::LimitOutput(*n)),
            Refusal::Memory => Ok(Refusal::Memory),
        }
    }
}

impl From<AllocError> for Refusal {
    ghost from_gives = { λ _ e. e ≡ Memory };

    fn from(_: AllocError) -> Self {
        Refusal::Memory
    }
}

impl From<CurveFault> for Refusal {
    ghost use Rattle.ff_meaning.specs.Refusals.{refusal_of_curve};

    ghost from_gives = { λ fault e. e ≡ refusal_of_curve fault };

    fn from(fault: CurveFault) -> Self {
        match fault {
            CurveFault::LimitY(n) => Refusal::LimitY(n),
            CurveFault::LimitX(d) => Refusal::LimitX(d),
            CurveFault::NotMonic(p) => Refusal::NotMonic(p),
            CurveFault::NotSeparable => Refusal::NotSeparable,
            CurveFault::LimitDisc(d) => Refusal::LimitDisc(d),
            CurveFault::LimitInf(d) => Refusal::LimitInf(d),
            CurveFault::Memory => Refusal::Memory,
        }
    }
}

impl<T: Drop> From<AllocFailed<T>> for Refusal {
    ghost from_gives = { λ _ e. e ≡ Memory };

    fn from(_: AllocFailed<T>) -> Self {
        Refusal::Memory
    }
}

/// A name, and a number behind it.
fn push_one(out: &mut Vec<u8>, name: &[u8], v: u64) -> Result<(), AllocError>
    ensures { OnOk result (out.new.items ≡ out.old.items ++ one_value name.now (decimal v)) }
{
    out.extend_from_slice(name)?;
    out.push(b' ')?;
    push_number(out, v)
}

/// A name, and two numbers behind it.
fn push_two(out: &mut Vec<u8>, name: &[u8], v: u32, w: u32) -> Result<(), AllocError>
    ensures { OnOk result (out.new.items ≡ out.old.items ++ two_values name.now (decimal v) (decimal w)) }
{
    out.extend_from_slice(name)?;
    out.push(b' ')?;
    push_number(out, u64::from(v))?;
    out.push(b' ')?;
    push_number(out, u64::from(w))
}

/// A name, and a polynomial behind it.
fn push_named(out: &mut Vec<u8>, name: &[u8], p: &Poly) -> Result<(), AllocError>
    ensures { OnOk result (out.new.items ≡ out.old.items ++ one_value name.now (poly_text p.now)) }
{
    out.extend_from_slice(name)?;
    out.push(b' ')?;
    push_poly(out, p)
}

/// A name, and a function behind it.
fn push_function(out: &mut Vec<u8>, name: &[u8], z: &Written) -> Result<(), AllocError>
    ensures { OnOk result (out.new.items ≡ out.old.items ++ one_value name.now (elem_text z.now.num z.now.den)) }
{
    out.extend_from_slice(name)?;
    out.push(b' ')?;
    push_elem(out, z.num(), z.den())
}

/// The name of a refusal with its values.
fn push_words(out: &mut Vec<u8>, r: &Refusal) -> Result<(), AllocError>
    ensures { OnOk result (out.new.items ≡ out.old.items ++ refusal_words r.now) }
{
    match r {
        Refusal::FieldSize(p, m) => push_two(out, b"FieldSize", *p, *m),
        Refusal::NotField(a, b) => push_two(out, b"NotField", *a, *b),
        Refusal::LimitY(n) => push_one(out, b"LimitY", *n),
        Refusal::LimitX(d) => push_one(out, b"LimitX", *d),
        Refusal::NotMonic(p) => push_named(out, b"NotMonic", p),
        Refusal::NotSeparable => out.extend_from_slice(b"NotSeparable"),
        Refusal::LimitDisc(d) => push_one(out, b"LimitDisc", *d as u64),
        Refusal::LimitInf(d) => push_one(out, b"LimitInf", u64::from(*d)),
        Refusal::Reducible(z) => push_function(out, b"Reducible", z),
        Refusal::NameTaken(name) => {
            out.extend_from_slice(b"NameTaken ")?;
            out.extend_from_slice(name.letters.as_slice())
        }
        Refusal::LimitPlace(d) => push_one(out, b"LimitPlace", *d),
        Refusal::NotIrreducible(h) => push_named(out, b"NotIrreducible", h),
        Refusal::NoSuchPlace(i, r) => push_two(out, b"NoSuchPlace", *i, *r),
        Refusal::CodeRange(c) => push_one(out, b"CodeRange", u64::from(*c)),
        Refusal::Length(n) => push_one(out, b"Length", *n as u64),
        Refusal::Zero => out.extend_from_slice(b"Zero"),
        Refusal::LimitDegree(d) => push_one(out, b"LimitDegree", *d as u64),
        Refusal::LimitOutput(b) => push_one(out, b"LimitOutput", *b),
        Refusal::Memory => out.extend_from_slice(b"Memory"),
    }
}

/// The line of a refusal, without its line feed, at the end of the buffer. After an error the buffer holds a part of
/// it.
/// Want of memory has no line.
pub fn push_refusal(out: &mut Vec<u8>, r: &Refusal) -> Result<(), AllocError>
    requires { r.now ≢ Memory }
    ensures { OnOk result (out.new.items ≡ out.old.items ++ refusal_text r.now) }
{
    out.extend_from_slice(b"refused ")?;
    push_words(out, r)
}

/// The line of a refusal, without its line feed. Want of memory has none.
pub fn refusal_text(alloc: Global, r: &Refusal) -> Result<Vec<u8>, AllocError>
    requires { r.now ≢ Memory }
    ensures { IfOk result (λ text. text.items ≡ refusal_text r.now) }
{
    let mut text = Vec::new(alloc);
    push_refusal(&mut text, r)?;
    Ok(text)
}
