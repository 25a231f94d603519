//! Answers lines of known answers over lattices, orders, their quotients and maximal orders: a line in, a line out. A
//! line is a word, a field, a colon, and arguments between colons; or it begins with `#` and is its own answer.
//!
//! A lattice is read from generators between semicolons, and written by its pivot degree, a colon, its rows between
//! semicolons, a stroke and its denominator.
#![tactic(auto)]

mod answer;
mod curves;
mod enlarged;
mod infinite;
mod lattices;
mod operations;
mod orders;
mod places;
mod quotients;

use std::io;

fn main(rt: HostRuntime) -> io::Result<()> {
    for line in rt.lines(rt.alloc()) {
        let line = line?;
        let text = answer::answer(rt.alloc(), line.as_str())?;
        println!(rt; "{text}")?;
    }
    Ok(())
}
