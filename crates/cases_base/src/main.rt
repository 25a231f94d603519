//! Answers lines of known answers over fields, polynomials, matrices, algebras, factors and rows of polynomials: a line
//! in, a line out. A line is a word, a field, a colon, and arguments between colons; or it begins with `#` and is its
//! own answer.
#![tactic(auto)]

mod algebras;
mod answer;
mod codes;
mod copied;
mod copies;
mod factors;
mod matrices;
mod polynomials;
mod reduced;
mod tables;
mod trials;

use std::io;

fn main(rt: HostRuntime) -> io::Result<()> {
    for line in rt.lines(rt.alloc()) {
        let line = line?;
        let text = answer::answer(rt.alloc(), line.as_str())?;
        println!(rt; "{text}")?;
    }
    Ok(())
}
