//! Answers to statements, as values.

use ff_poly::Poly;
use ff_text::Written;
use ff_written::RowList;
use std::marker::Model;

/// A power of a polynomial, which has a line of its own in a factorisation.
#[derive(Drop)]
pub struct PowerLine {
    /// The exponent.
    pub exponent: u32,
    /// The polynomial.
    pub poly: Poly,
}

/// The powers of a factorisation.
#[derive(Drop)]
pub struct PowerList {
    /// The powers in the order in which they are printed.
    pub powers: Vec<PowerLine>,
}

impl Model for PowerList {
    ghost use Rattle.std.specs.Prelude.{List};
    ghost use Rattle.ff_cert.specs.declared.answer.PowerLine.{PowerLine};

    ghost Value = { List PowerLine };

    ghost view = { λ l. l.powers.items };
}

/// What the lines of a place say.
#[derive(Drop)]
pub struct PlaceLines {
    /// Its number among the places over the same polynomial, or over infinity.
    pub number: u64,
    /// Its ramification index.
    pub e: u64,
    /// Its degree.
    pub degree: u64,
    /// Rows that span it.
    pub rows: RowList,
}

/// Places, each with its lines.
#[derive(Drop)]
pub struct PlaceList {
    /// The places in the order of their numbers.
    pub places: Vec<PlaceLines>,
}

impl Model for PlaceList {
    ghost use Rattle.std.specs.Prelude.{List};
    ghost use Rattle.ff_cert.specs.declared.answer.PlaceLines.{PlaceLines};

    ghost Value = { List PlaceLines };

    ghost view = { λ l. l.places.items };
}

/// What the answer lines of a statement say: one variant a statement.
#[derive(Drop)]
pub enum Answer {
    /// The size of the field that a `field` line names.
    FieldOf { q: u64 },
    /// The degree in y of a curve, and its infinity number.
    CurveOf { n: u64, c: u64 },
    /// A product.
    Mul { element: Written },
    /// A code, and the powers of irreducible polynomials.
    Factor { unit: u32, parts: PowerList },
    /// Rows that span the functions that are integral on a side.
    OrderOf { rows: RowList },
    /// All places over a polynomial, or over infinity, and their number.
    Places { count: u64, places: PlaceList },
    /// One of these places.
    Place { place: PlaceLines },
    /// A basis of the constants over the field, and its size.
    Constants { dimension: u64, functions: RowList },
    /// The genus.
    Genus { genus: u64 },
}
