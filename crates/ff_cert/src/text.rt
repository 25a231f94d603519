//! The lines of a block, each written at the end of one buffer. After an error the buffer holds a part of the lines.

ghost use Rattle.std.specs.Prelude.{◌≡◌, ◌++◌, OnOk, IfOk};
ghost use Rattle.ff_cert.specs.Lines.{answer_line, echo_line};
ghost use Rattle.ff_cert.specs.Answers.{answer_lines, degree_of_answer};
ghost use Rattle.ff_cert.specs.RowField as field_row;
ghost use Rattle.ff_cert.specs.RowCurve as curve_row;
ghost use Rattle.ff_cert.specs.RowMul as mul_row;
ghost use Rattle.ff_cert.specs.RowFactor as factor_row;
ghost use Rattle.ff_cert.specs.RowOrder as order_row;
ghost use Rattle.ff_cert.specs.RowPlaces as places_row;
ghost use Rattle.ff_cert.specs.RowPlace as place_row;
ghost use Rattle.ff_cert.specs.RowConstants as constants_row;
ghost use Rattle.ff_cert.specs.RowGenus as genus_row;

use crate::answer::{Answer, PlaceLines, PowerLine};
use ff_script::{Statement, push_statement};
use ff_text::Written;
use ff_text::number::push_number;
use ff_text::printed::{push_elem, push_poly};
use std::alloc::{AllocError, Global};

/// The line that repeats the statement.
pub fn push_echo(out: &mut Vec<u8>, s: &Statement) -> Result<(), AllocError>
    ensures { OnOk result (out.new.items ≡ out.old.items ++ echo_line s.now) }
{
    out.extend_from_slice(b"> ")?;
    push_statement(out, s)?;
    out.extend_from_slice(b"\n")
}

/// The answer line of a field.
fn push_field(out: &mut Vec<u8>, q: u64) -> Result<(), AllocError>
    ensures { OnOk result (out.new.items ≡ out.old.items ++ field_row.lines q) }
{
    out.extend_from_slice(b"= q ")?;
    push_number(out, q)?;
    out.extend_from_slice(b"\n")
}

/// The answer line of a curve.
fn push_curve(out: &mut Vec<u8>, n: u64, c: u64) -> Result<(), AllocError>
    ensures { OnOk result (out.new.items ≡ out.old.items ++ curve_row.lines n c) }
{
    out.extend_from_slice(b"= n ")?;
    push_number(out, n)?;
    out.extend_from_slice(b" c ")?;
    push_number(out, c)?;
    out.extend_from_slice(b"\n")
}

/// The line of a function.
fn push_row(out: &mut Vec<u8>, z: &Written) -> Result<(), AllocError>
    ensures { OnOk result (out.new.items ≡ out.old.items ++ mul_row.lines z.now) }
{
    out.extend_from_slice(b"= ")?;
    push_elem(out, z.num(), z.den())?;
    out.extend_from_slice(b"\n")
}

/// The line of a power.
fn push_part(out: &mut Vec<u8>, part: &PowerLine) -> Result<(), AllocError>
    ensures { OnOk result (out.new.items ≡ out.old.items ++ answer_line (factor_row.part_text part.now)) }
{
    out.extend_from_slice(b"= ")?;
    push_number(out, u64::from(part.exponent))?;
    out.push(b' ')?;
    push_poly(out, &part.poly)?;
    out.extend_from_slice(b"\n")
}

/// A line for each power.
fn push_parts(out: &mut Vec<u8>, parts: &[PowerLine]) -> Result<(), AllocError>
    ensures { OnOk result (out.new.items ≡ out.old.items ++ factor_row.part_lines parts.now) }
{
    for part in parts {
        push_part(out, part)?;
    }
    Ok(())
}

/// The answer lines of a factorisation.
fn push_factors(out: &mut Vec<u8>, unit: u32, parts: &[PowerLine]) -> Result<(), AllocError>
    ensures { OnOk result (out.new.items ≡ out.old.items ++ factor_row.lines unit parts.now) }
{
    out.extend_from_slice(b"= unit ")?;
    push_number(out, u64::from(unit))?;
    out.extend_from_slice(b"\n")?;
    push_parts(out, parts)
}

/// A line for each row.
fn push_rows(out: &mut Vec<u8>, rows: &[Written]) -> Result<(), AllocError>
    ensures { OnOk result (out.new.items ≡ out.old.items ++ order_row.lines rows.now) }
{
    for z in rows {
        push_row(out, z)?;
    }
    Ok(())
}

/// The line with the numbers of a place.
fn push_head(out: &mut Vec<u8>, p: &PlaceLines) -> Result<(), AllocError>
    ensures { OnOk result (out.new.items ≡ out.old.items ++ answer_line (place_row.head_text p.now)) }
{
    out.extend_from_slice(b"= place ")?;
    push_number(out, p.number)?;
    out.extend_from_slice(b" e ")?;
    push_number(out, p.e)?;
    out.extend_from_slice(b" degree ")?;
    push_number(out, p.degree)?;
    out.extend_from_slice(b"\n")
}

/// The lines of a place: its numbers, and a line for each row.
fn push_place(out: &mut Vec<u8>, p: &PlaceLines) -> Result<(), AllocError>
    ensures { OnOk result (out.new.items ≡ out.old.items ++ place_row.lines p.now) }
{
    push_head(out, p)?;
    push_rows(out, p.rows.rows.as_slice())
}

/// The lines of each place.
fn push_each_place(out: &mut Vec<u8>, places: &[PlaceLines]) -> Result<(), AllocError>
    ensures { OnOk result (out.new.items ≡ out.old.items ++ places_row.place_lines places.now) }
{
    for p in places {
        push_place(out, p)?;
    }
    Ok(())
}

/// The line with the number of places, and the lines of each.
fn push_places(out: &mut Vec<u8>, count: u64, places: &[PlaceLines]) -> Result<(), AllocError>
    ensures { OnOk result (out.new.items ≡ out.old.items ++ places_row.lines count places.now) }
{
    out.extend_from_slice(b"= count ")?;
    push_number(out, count)?;
    out.extend_from_slice(b"\n")?;
    push_each_place(out, places)
}

/// The line with the dimension, and a line for each function.
fn push_constants(
    out: &mut Vec<u8>,
    dimension: u64,
    functions: &[Written],
) -> Result<(), AllocError>
    ensures { OnOk result (out.new.items ≡ out.old.items ++ constants_row.lines dimension functions.now) }
{
    out.extend_from_slice(b"= dimension ")?;
    push_number(out, dimension)?;
    out.extend_from_slice(b"\n")?;
    push_rows(out, functions)
}

/// The line with the genus.
fn push_genus(out: &mut Vec<u8>, genus: u64) -> Result<(), AllocError>
    ensures { OnOk result (out.new.items ≡ out.old.items ++ genus_row.lines genus) }
{
    out.extend_from_slice(b"= genus ")?;
    push_number(out, genus)?;
    out.extend_from_slice(b"\n")
}

/// The lines of the answer, at the end of the buffer.
pub fn push_answer(out: &mut Vec<u8>, a: &Answer) -> Result<(), AllocError>
    ensures { OnOk result (out.new.items ≡ out.old.items ++ answer_lines a.now) }
{
    match a {
        Answer::FieldOf { q } => push_field(out, *q),
        Answer::CurveOf { n, c } => push_curve(out, *n, *c),
        Answer::Mul { element } => push_row(out, element),
        Answer::Factor { unit, parts } => push_factors(out, *unit, parts.powers.as_slice()),
        Answer::OrderOf { rows } => push_rows(out, rows.rows.as_slice()),
        Answer::Places { count, places } => push_places(out, *count, places.places.as_slice()),
        Answer::Place { place } => push_place(out, place),
        Answer::Constants {
            dimension,
            functions,
        } => push_constants(out, *dimension, functions.rows.as_slice()),
        Answer::Genus { genus } => push_genus(out, *genus),
    }
}

/// The lines of the answer.
pub fn answer_text(alloc: Global, a: &Answer) -> Result<Vec<u8>, AllocError>
    ensures { IfOk result (λ text. text.items ≡ answer_lines a.now) }
{
    let mut text = Vec::new(alloc);
    push_answer(&mut text, a)?;
    Ok(text)
}

/// The greatest degree of the function's polynomials.
fn degree_of(z: &Written) -> usize
    ensures { result ≡ mul_row.degree z.now }
{
    let mut degree = z.den().degree().unwrap_or(0);
    for p in z.num() {
        degree = p.degree().unwrap_or(0).max(degree);
    }
    degree
}

/// The greatest degree of the rows' polynomials.
pub fn degree_of_rows(rows: &[Written]) -> usize
    ensures { result ≡ order_row.degree rows.now }
{
    let mut degree = 0;
    for z in rows {
        degree = degree_of(z).max(degree);
    }
    degree
}

/// The greatest degree of the polynomials in the places' rows.
pub fn degree_of_places(places: &[PlaceLines]) -> usize
    ensures { result ≡ places_row.degree places.now }
{
    let mut degree = 0;
    for p in places {
        degree = degree_of_rows(p.rows.rows.as_slice()).max(degree);
    }
    degree
}

/// The greatest degree of the powers' polynomials.
fn degree_of_parts(parts: &[PowerLine]) -> usize
    ensures { result ≡ factor_row.degree parts.now }
{
    let mut degree = 0;
    for part in parts {
        degree = part.poly.degree().unwrap_or(0).max(degree);
    }
    degree
}

/// The greatest degree of a polynomial in the answer.
pub fn degree(a: &Answer) -> usize
    ensures { result ≡ degree_of_answer a.now }
{
    match a {
        Answer::FieldOf { .. } | Answer::CurveOf { .. } | Answer::Genus { .. } => 0,
        Answer::Mul { element } => degree_of(element),
        Answer::Factor { parts, .. } => degree_of_parts(parts.powers.as_slice()),
        Answer::OrderOf { rows } => degree_of_rows(rows.rows.as_slice()),
        Answer::Places { places, .. } => degree_of_places(places.places.as_slice()),
        Answer::Place { place } => degree_of_rows(place.rows.rows.as_slice()),
        Answer::Constants { functions, .. } => degree_of_rows(functions.rows.as_slice()),
    }
}
