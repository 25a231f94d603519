//! Reads the statement of a line.

ghost use Rattle.std.specs.Prelude.{◌≡◌, ◌↔◌, ◌⊎◌, ◌++◌, false, List, [], ℕ, not, position, IsTrue, IfOk, IfErr, MatchOption, codes};
ghost use Rattle.std.specs.List.{AllByRecursion};
ghost use Rattle.ff_text.specs.Spelling.{Is, is_blank, SpellsNumber, SpellsTerms};
ghost use Rattle.ff_text.specs.Reading.{IsLongestSpelling, IsReadFault};
ghost use Rattle.ff_text.specs.declared.terms.Term.{Term};
ghost use Rattle.ff_text.specs.declared.terms.ElemText.{ElemText};
ghost use Rattle.ff_script.specs.declared.script.Over.{Over};
ghost use Rattle.ff_script.specs.Grammar.{is_word_byte, begins_with_word, ends_with_word, IsName, SpellsLine, IsSkipped};
ghost use Rattle.ff_script.specs.Reading.{IsReading, behind_blanks, IsFront, AreNumbersAt, IsModulusAt, AreTermsAt, IsSideAt, IsOverAt, IsTermsFront, IsOverFront, IsPlaceAt, IsNameFront, is_behind_element, IsElementFront, IsBehind};

use crate::script::{CodeList, Modulus, Name, Over, Statement};
use ff_text::{
    ElemText, TermList, TextFault, read_element, read_number, read_terms, read_terms_in_x,
};
use function_field::Side;
use std::alloc::{AllocError, Global};

/// A space, a tab or a carriage return.
fn is_blank(b: u8) -> bool
    ensures { result ≡ is_blank b }
{
    b == b' ' || b == b'\t' || b == b'\r'
}

/// A letter, a digit or `_`.
fn is_word_byte(b: u8) -> bool
    ensures { result ≡ is_word_byte b }
{
    b.is_ascii_alphanumeric() || b == b'_'
}

/// The first byte is a letter, a digit or `_`.
fn begins_with_word(bytes: &[u8]) -> bool
    ensures { result ≡ begins_with_word bytes.now }
{
    match bytes {
        [first, ..] => is_word_byte(*first),
        [] => false,
    }
}

/// The bytes from the first on that is no blank.
fn behind_blanks(bytes: &[u8]) -> &[u8]
    ensures { result.now ≡ behind_blanks bytes.now }
{
    let mut rest = bytes;
    while let Some((first, others)) = rest.split_first() {
        if !is_blank(*first) {
            return rest;
        }
        rest = others;
    }
    rest
}

/// What stands behind the word and the blanks after it, if the word begins the bytes and ends there.
fn behind_word<'a>(bytes: &'a [u8], word: &[u8]) -> Option<&'a [u8]>
    requires { IsTrue (ends_with_word word.now) }
    ensures { MatchOption result
        ((rest : List ℕ) → ¬ IsFront (Is word.now) bytes.now rest)
        (λ rest. IsFront (Is word.now) bytes.now rest.now) }
{
    let Some(rest) = bytes.strip_prefix(word) else {
        return None;
    };
    if begins_with_word(rest) {
        return None;
    }
    Some(behind_blanks(rest))
}

/// The number that the bytes begin with, and what stands behind the blanks after it.
fn next_number(bytes: &[u8]) -> Option<(u32, &[u8])>
    ensures { MatchOption result
        ((n : ℕ) (rest : List ℕ) → ¬ IsFront (SpellsNumber n) bytes.now rest)
        (λ x. IsFront (SpellsNumber x.0) bytes.now x.1.now) }
{
    let (n, end) = match read_number(bytes, 0) {
        Ok(read) => read,
        Err(_) => return None,
    };
    let behind = &bytes[end..];
    if begins_with_word(behind) {
        return None;
    }
    Some((n, behind_blanks(behind)))
}

/// The numbers that the bytes are, with blanks between them.
fn numbers(alloc: Global, bytes: &[u8]) -> Result<Option<Vec<u32>>, AllocError>
    ensures { IfOk result (λ o. MatchOption o
        ((ns : List ℕ) → ¬ AreNumbersAt ns bytes.now)
        (λ v. AreNumbersAt v.items bytes.now)) }
{
    let mut numbers = Vec::new(alloc);
    let mut rest = bytes;
    while !rest.is_empty() {
        let Some((n, behind)) = next_number(rest) else {
            return Ok(None);
        };
        numbers.push(n)?;
        rest = behind;
    }
    Ok(Some(numbers))
}

/// The degree and the coefficients that the bytes are.
fn modulus(alloc: Global, bytes: &[u8]) -> Result<Option<Modulus>, AllocError>
    ensures { IfOk result (IsReading IsModulusAt bytes.now) }
{
    let Some((m, rest)) = next_number(bytes) else {
        return Ok(None);
    };
    let Some(codes) = numbers(alloc, rest)? else {
        return Ok(None);
    };
    if codes.len() as u64 != u64::from(m) + 1 {
        return Ok(None);
    }
    let codes = CodeList { codes };
    Ok(Some(Modulus { m, codes }))
}

/// The statement `field`, of what stands behind its word.
fn field(alloc: Global, bytes: &[u8]) -> Result<Option<Statement>, AllocError>
    ensures { IfOk result (IsReading (IsBehind (codes "field")) bytes.now) }
{
    let Some((p, rest)) = next_number(bytes) else {
        return Ok(None);
    };
    if rest.is_empty() {
        return Ok(Some(Statement::FieldOf { p, tail: None }));
    }
    match modulus(alloc, rest)? {
        Some(tail) => Ok(Some(Statement::FieldOf {
            p,
            tail: Some(tail),
        })),
        None => Ok(None),
    }
}

/// The longest polynomial that the bytes begin with, and the column behind it. `y` says whether y may stand in it.
fn longest_terms(alloc: Global, y: bool, bytes: &[u8]) -> Result<(TermList, usize), TextFault>
    ensures found { IfOk result (λ r. IsLongestSpelling (SpellsTerms y) bytes.now 0 r.0 r.1) }
    ensures fault { IfErr result (IsReadFault (SpellsTerms y) bytes.now 0) }
{
    if y {
        read_terms(alloc, bytes, 0)
    } else {
        read_terms_in_x(alloc, bytes, 0)
    }
}

/// The polynomial that the bytes are. `y` says whether y may stand in it.
fn polynomial(alloc: Global, y: bool, bytes: &[u8]) -> Result<Option<TermList>, AllocError>
    ensures { IfOk result (IsReading (AreTermsAt y) bytes.now) }
{
    let (f, end) = match longest_terms(alloc, y, bytes) {
        Ok(read) => read,
        Err(TextFault::Memory) => return Err(AllocError),
        Err(TextFault::Syntax(_)) => return Ok(None),
        Err(TextFault::CodeRange(_)) => unreachable!(),
    };
    if behind_blanks(&bytes[end..]).is_empty() {
        return Ok(Some(f));
    }
    Ok(None)
}

/// The statement `curve`, of what stands behind its word.
fn curve(alloc: Global, bytes: &[u8]) -> Result<Option<Statement>, AllocError>
    ensures { IfOk result (IsReading (IsBehind (codes "curve")) bytes.now) }
{
    match polynomial(alloc, true, bytes)? {
        Some(f) => Ok(Some(Statement::CurveOf { f })),
        None => Ok(None),
    }
}

/// The statement `factor`, of what stands behind its word.
fn factor(alloc: Global, bytes: &[u8]) -> Result<Option<Statement>, AllocError>
    ensures { IfOk result (IsReading (IsBehind (codes "factor")) bytes.now) }
{
    match polynomial(alloc, false, bytes)? {
        Some(g) => Ok(Some(Statement::Factor { g })),
        None => Ok(None),
    }
}

/// Nothing is left, or a further element begins.
fn is_behind_element(rest: &[u8]) -> bool
    ensures { result ≡ is_behind_element rest.now }
{
    match rest {
        [first, ..] => *first == b'[',
        [] => true,
    }
}

/// The element that the bytes begin with, if nothing or a further element stands behind the blanks after it; and what
/// stands there.
fn next_element(alloc: Global, bytes: &[u8]) -> Result<Option<(ElemText, &[u8])>, AllocError>
    ensures { IfOk result (λ o. MatchOption o
        ((e : ElemText) (rest : List ℕ) → ¬ IsElementFront e bytes.now rest)
        (λ x. IsElementFront x.0 bytes.now x.1.now)) }
{
    let (e, end) = match read_element(alloc, bytes, 0) {
        Ok(read) => read,
        Err(TextFault::Memory) => return Err(AllocError),
        Err(TextFault::Syntax(_)) => return Ok(None),
        Err(TextFault::CodeRange(_)) => unreachable!(),
    };
    let rest = behind_blanks(&bytes[end..]);
    if is_behind_element(rest) {
        return Ok(Some((e, rest)));
    }
    Ok(None)
}

/// The statement `mul`, of what stands behind its word.
fn mul(alloc: Global, bytes: &[u8]) -> Result<Option<Statement>, AllocError>
    ensures { IfOk result (IsReading (IsBehind (codes "mul")) bytes.now) }
{
    let Some((a, rest)) = next_element(alloc, bytes)? else {
        return Ok(None);
    };
    let Some((b, rest)) = next_element(alloc, rest)? else {
        return Ok(None);
    };
    if rest.is_empty() {
        return Ok(Some(Statement::Mul { a, b }));
    }
    Ok(None)
}

/// The bytes are the word, with blanks behind it.
fn is_word(bytes: &[u8], word: &[u8]) -> bool
    requires { IsTrue (ends_with_word word.now) }
    ensures { IsTrue result ↔ IsFront (Is word.now) bytes.now [] }
{
    match behind_word(bytes, word) {
        Some(rest) => rest.is_empty(),
        None => false,
    }
}

/// The side whose word the bytes are.
fn side_at(bytes: &[u8]) -> Option<Side>
    ensures { IsReading IsSideAt bytes.now result }
{
    if is_word(bytes, b"finite") {
        return Some(Side::Finite);
    }
    if is_word(bytes, b"infinite") {
        return Some(Side::Infinite);
    }
    None
}

/// The statement `order`, of what stands behind its word.
fn order(bytes: &[u8]) -> Option<Statement>
    ensures { IsReading (IsBehind (codes "order")) bytes.now result }
{
    match side_at(bytes) {
        Some(side) => Some(Statement::OrderOf { side }),
        None => None,
    }
}

/// The polynomial in x that the bytes begin with, if a letter, a digit or `_` stands behind the blanks after it; and
/// what stands there.
fn next_terms(alloc: Global, bytes: &[u8]) -> Result<Option<(TermList, &[u8])>, AllocError>
    ensures { IfOk result (λ o. MatchOption o
        ((g : List Term) (rest : List ℕ) → ¬ IsTermsFront g bytes.now rest)
        (λ x. IsTermsFront x.0 bytes.now x.1.now)) }
{
    let (g, end) = match longest_terms(alloc, false, bytes) {
        Ok(read) => read,
        Err(TextFault::Memory) => return Err(AllocError),
        Err(TextFault::Syntax(_)) => return Ok(None),
        Err(TextFault::CodeRange(_)) => unreachable!(),
    };
    let behind = &bytes[end..];
    if begins_with_word(behind) {
        return Ok(None);
    }
    let rest = behind_blanks(behind);
    if begins_with_word(rest) {
        return Ok(Some((g, rest)));
    }
    Ok(None)
}

/// What places lie over, of bytes that it is.
fn over_at(alloc: Global, bytes: &[u8]) -> Result<Option<Over>, AllocError>
    ensures { IfOk result (IsReading IsOverAt bytes.now) }
{
    if is_word(bytes, b"inf") {
        return Ok(Some(Over::Inf));
    }
    let Some(g) = polynomial(alloc, false, bytes)? else {
        return Ok(None);
    };
    Ok(Some(Over::At(g)))
}

/// What places lie over, of bytes that begin with it, if a letter, a digit or `_` stands behind the blanks after it;
/// and what stands there.
fn next_over(alloc: Global, bytes: &[u8]) -> Result<Option<(Over, &[u8])>, AllocError>
    ensures { IfOk result (λ o. MatchOption o
        ((over : Over) (rest : List ℕ) → ¬ IsOverFront over bytes.now rest)
        (λ x. IsOverFront x.0 bytes.now x.1.now)) }
{
    if let Some(rest) = behind_word(bytes, b"inf") {
        if begins_with_word(rest) {
            return Ok(Some((Over::Inf, rest)));
        }
        return Ok(None);
    }
    match next_terms(alloc, bytes)? {
        Some((g, rest)) => Ok(Some((Over::At(g), rest))),
        None => Ok(None),
    }
}

/// The statement `places`, of what stands behind its word.
fn places(alloc: Global, bytes: &[u8]) -> Result<Option<Statement>, AllocError>
    ensures { IfOk result (IsReading (IsBehind (codes "places")) bytes.now) }
{
    match over_at(alloc, bytes)? {
        Some(over) => Ok(Some(Statement::Places { over })),
        None => Ok(None),
    }
}

/// The position of the first byte that is no letter, digit or `_`.
fn word_end(bytes: &[u8]) -> Option<usize>
    ensures { result ≡ position (λ b. not (is_word_byte b)) bytes.now }
{
    bytes.iter().position(|b| !is_word_byte(*b))
}

/// The bytes up to the first that is no letter, digit or `_`, and those from there on.
fn split_word(bytes: &[u8]) -> (&[u8], &[u8])
    ensures whole { bytes.now ≡ result.0.now ++ result.1.now }
    ensures word { AllByRecursion (λ b. IsTrue (is_word_byte b)) result.0.now }
    ensures end { begins_with_word result.1.now ≡ false }
{
    match word_end(bytes) {
        Some(end) => (&bytes[..end], &bytes[end..]),
        None => (bytes, &bytes[bytes.len()..]),
    }
}

/// Whether the word is `x`, `y` or `inf`, which are no names.
fn is_reserved(word: &[u8]) -> bool
    ensures { IsTrue result ↔ (word.now ≡ codes "x") ⊎ ((word.now ≡ codes "y") ⊎ (word.now ≡ codes "inf")) }
{
    match word {
        [first] => *first == b'x' || *first == b'y',
        [first, second, third] => *first == b'i' && *second == b'n' && *third == b'f',
        _ => false,
    }
}

/// Whether the word is a name: at most 32 bytes from a letter on, and not `x`, `y` or `inf`.
fn is_name(word: &[u8]) -> bool
    requires { AllByRecursion (λ b. IsTrue (is_word_byte b)) word.now }
    ensures { IsTrue result ↔ IsName word.now }
{
    let begins = match word {
        [first, ..] => first.is_ascii_alphabetic(),
        [] => false,
    };
    begins && word.len() <= 32 && !is_reserved(word)
}

/// The name that the bytes begin with, and what stands behind the blanks after the `=` that follows.
fn next_name(alloc: Global, bytes: &[u8]) -> Result<Option<(Name, &[u8])>, AllocError>
    ensures { IfOk result (λ o. MatchOption o
        ((name : List ℕ) (rest : List ℕ) → ¬ IsNameFront name bytes.now rest)
        (λ x. IsNameFront x.0 bytes.now x.1.now)) }
{
    let (word, rest) = split_word(bytes);
    if !is_name(word) {
        return Ok(None);
    }
    let Some(behind) = behind_blanks(rest).strip_prefix(b"=") else {
        return Ok(None);
    };
    let letters = word.to_vec(alloc)?;
    Ok(Some((Name { letters }, behind_blanks(behind))))
}

/// What places lie over, and the number that the bytes end with.
fn place_at(alloc: Global, bytes: &[u8]) -> Result<Option<(Over, u32)>, AllocError>
    ensures { IfOk result (λ o. MatchOption o
        ((over : Over) (index : ℕ) → ¬ IsPlaceAt over index bytes.now)
        (λ x. IsPlaceAt x.0 x.1 bytes.now)) }
{
    let Some((over, rest)) = next_over(alloc, bytes)? else {
        return Ok(None);
    };
    let Some((index, rest)) = next_number(rest) else {
        return Ok(None);
    };
    if rest.is_empty() {
        return Ok(Some((over, index)));
    }
    Ok(None)
}

/// The statement `place`, of what stands behind its word.
fn place(alloc: Global, bytes: &[u8]) -> Result<Option<Statement>, AllocError>
    ensures { IfOk result (IsReading (IsBehind (codes "place")) bytes.now) }
{
    let Some((name, rest)) = next_name(alloc, bytes)? else {
        return Ok(None);
    };
    match place_at(alloc, rest)? {
        Some((over, index)) => Ok(Some(Statement::Place { name, over, index })),
        None => Ok(None),
    }
}

/// The statement `constants`, of what stands behind its word.
fn constants(bytes: &[u8]) -> Option<Statement>
    ensures { IsReading (IsBehind (codes "constants")) bytes.now result }
{
    if bytes.is_empty() {
        return Some(Statement::Constants);
    }
    None
}

/// The statement `genus`, of what stands behind its word.
fn genus(bytes: &[u8]) -> Option<Statement>
    ensures { IsReading (IsBehind (codes "genus")) bytes.now result }
{
    if bytes.is_empty() {
        return Some(Statement::Genus);
    }
    None
}

/// The statement that a line spells, given without its line feed. Linear in the bytes.
///
/// A line that a script skips spells none.
pub fn read_statement(alloc: Global, line: &[u8]) -> Result<Option<Statement>, AllocError>
    // The statement that the line spells, or none where it spells none.
    ensures { IfOk result (IsReading SpellsLine line.now) }
{
    let bytes = behind_blanks(line);
    if let Some(rest) = behind_word(bytes, b"field") {
        return field(alloc, rest);
    }
    if let Some(rest) = behind_word(bytes, b"curve") {
        return curve(alloc, rest);
    }
    if let Some(rest) = behind_word(bytes, b"mul") {
        return mul(alloc, rest);
    }
    if let Some(rest) = behind_word(bytes, b"factor") {
        return factor(alloc, rest);
    }
    if let Some(rest) = behind_word(bytes, b"places") {
        return places(alloc, rest);
    }
    if let Some(rest) = behind_word(bytes, b"place") {
        return place(alloc, rest);
    }
    if let Some(rest) = behind_word(bytes, b"order") {
        return Ok(order(rest));
    }
    if let Some(rest) = behind_word(bytes, b"constants") {
        return Ok(constants(rest));
    }
    match behind_word(bytes, b"genus") {
        Some(rest) => Ok(genus(rest)),
        None => Ok(None),
    }
}

/// Whether a script skips the line: blanks alone, or a comment.
pub fn is_skipped(line: &[u8]) -> bool
    ensures { IsTrue result ↔ IsSkipped line.now }
{
    match behind_blanks(line) {
        [first, ..] => *first == b'#',
        [] => true,
    }
}
