//! Reads numbers, polynomials and elements in the middle of a line.
//!
//! Each reader reads the longest spelling that begins at a column of the line, and answers its value and the column
//! behind it. Where none begins there, it answers `TextFault::Syntax` with the greatest column such that the bytes from
//! the one to before the other begin a spelling. It never answers `TextFault::CodeRange`, and takes time in proportion
//! to the bytes that it looks at. Condition of each: the column isn't behind the end of the line.

ghost use Rattle.std.specs.Prelude.{◌≢◌, ◌≤◌, true, false, length, Err, IfOk, IfErr};
ghost use Rattle.ff_text.specs.Spelling.{SpellsNumber, SpellsTerms, SpellsElement};
ghost use Rattle.ff_text.specs.Reading.{IsLongestSpelling, IsReadFault};

use crate::element::ElementScan;
use crate::fault::TextFault;
use crate::scan::{Rules, Scan};
use crate::terms::{ElemText, TermList};
use std::alloc::Global;

/// A number of 1 to 9 decimal digits. No memory is taken.
pub fn read_number(line: &[u8], at: usize) -> Result<(u32, usize), TextFault>
    requires { at ≤ length line.now }
    ensures found { IfOk result (λ r. IsLongestSpelling SpellsNumber line.now at r.0 r.1) }
    ensures fault { IfErr result (IsReadFault SpellsNumber line.now at) }
    ensures no_memory { result ≢ Err TextFault.Memory }
{
    let mut n = 0;
    let mut end = at;
    while end < line.len() && end - at < 9 && line[end].is_ascii_digit() {
        n = 10 * n + u32::from(line[end] - b'0');
        end += 1;
    }
    if end == at {
        return Err(TextFault::Syntax(at));
    }
    Ok((n, end))
}

/// A polynomial in x and y.
pub fn read_terms(alloc: Global, line: &[u8], at: usize) -> Result<(TermList, usize), TextFault>
    requires { at ≤ length line.now }
    ensures found { IfOk result (λ r. IsLongestSpelling (SpellsTerms true) line.now at r.0 r.1) }
    ensures fault { IfErr result (IsReadFault (SpellsTerms true) line.now at) }
{
    terms(alloc, true, line, at)
}

/// A polynomial in x. No y may stand in it.
pub fn read_terms_in_x(
    alloc: Global,
    line: &[u8],
    at: usize,
) -> Result<(TermList, usize), TextFault>
    requires { at ≤ length line.now }
    ensures found { IfOk result (λ r. IsLongestSpelling (SpellsTerms false) line.now at r.0 r.1) }
    ensures fault { IfErr result (IsReadFault (SpellsTerms false) line.now at) }
{
    terms(alloc, false, line, at)
}

fn terms(alloc: Global, y: bool, line: &[u8], at: usize) -> Result<(TermList, usize), TextFault>
    requires { at ≤ length line.now }
    ensures found { IfOk result (λ r. IsLongestSpelling (SpellsTerms y) line.now at r.0 r.1) }
    ensures fault { IfErr result (IsReadFault (SpellsTerms y) line.now at) }
{
    let mut scan = Scan::new(alloc);
    let mut end = at;
    let mut reach = at;
    while reach < line.len() {
        if !scan.step(alloc, Rules { y, signs: true }, line[reach])? {
            break;
        }
        reach += 1;
        if scan.is_whole() {
            end = reach;
        }
    }
    match scan.into_terms()? {
        Some(terms) => Ok((terms, end)),
        None => Err(TextFault::Syntax(reach)),
    }
}

/// An element: polynomials in x in brackets, and a denominator if one is written.
pub fn read_element(alloc: Global, line: &[u8], at: usize) -> Result<(ElemText, usize), TextFault>
    requires { at ≤ length line.now }
    ensures found { IfOk result (λ r. IsLongestSpelling SpellsElement line.now at r.0 r.1) }
    ensures fault { IfErr result (IsReadFault SpellsElement line.now at) }
{
    let mut scan = ElementScan::new(alloc);
    let mut end = at;
    let mut reach = at;
    while reach < line.len() {
        if !scan.step(alloc, line[reach])? {
            break;
        }
        reach += 1;
        if scan.is_whole() {
            end = reach;
        }
    }
    match scan.into_element()? {
        Some(element) => Ok((element, end)),
        None => Err(TextFault::Syntax(reach)),
    }
}
