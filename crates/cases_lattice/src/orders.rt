//! Orders and their ideals.

ghost use Rattle.std.specs.Prelude.{IfOk};
ghost use Rattle.function_field.specs.Values.{IsPresOver};
ghost use Rattle.ff_lattice.specs.Orders.{IsOrderLattice};

use crate::lattices::{lattice, lattice_text};
use case_values::print::decided;
use case_values::read::{BAD, parted, presentation};
use ff_algebra::Pres;
use ff_fields::field::SmallField;
use ff_lattice::Order;
use ff_lattice::ideals::is_ideal;
use std::alloc::{AllocError, Global};

/// The order of the generators.
pub fn order<K: SmallField>(alloc: Global, k: &K, p: &Pres, text: &str) -> Result<Order, AllocError>
    requires { IsPresOver (K.field k.now).ops p.now }
    ensures { IfOk result (IsOrderLattice (K.field k.now) p.now) }
{
    match Order::new(alloc, k, p, lattice(alloc, k, p, text)?)? {
        Some(o) => Ok(o),
        None => Err(BAD),
    }
}

// A copy of the order.
fn order_text<K: SmallField>(
    alloc: Global,
    k: &K,
    p: &Pres,
    text: &str,
) -> Result<String, AllocError>
    requires { IsPresOver (K.field k.now).ops p.now }
{
    match Order::new(alloc, k, p, lattice(alloc, k, p, text)?)? {
        Some(o) => lattice_text(alloc, o.copy(alloc)?.lattice()),
        None => "no order".to_string(alloc),
    }
}

// `A: I`: is I an ideal of the order A?
fn has_ideal<K: SmallField>(alloc: Global, k: &K, p: &Pres, text: &str) -> Result<bool, AllocError>
    requires { IsPresOver (K.field k.now).ops p.now }
{
    let (a, i) = parted(text)?;
    let o = order(alloc, k, p, a)?;
    let i = lattice(alloc, k, p, i)?;
    is_ideal(alloc, k, p, &o, &i)
}

/// `order` has `f: A`: the order that A is, where it is one; `ideal` has `f: A: I`: whether I is an ideal of A.
pub fn order_line<K: SmallField>(
    alloc: Global,
    k: &K,
    word: &str,
    text: &str,
) -> Result<String, AllocError> {
    let (f, rest) = parted(text)?;
    let p = presentation(alloc, k, f)?;
    if word == "order" {
        return order_text(alloc, k, &p, rest);
    }
    decided(alloc, has_ideal(alloc, k, &p, rest)?)
}
