//! Answers lines of known answers over curves, functions, and the same functions in the other presentation: a line in,
//! a line out. A line is a word, a field, a colon, and arguments between colons; or it begins with `#` and is its own
//! answer.
#![tactic(auto)]

mod answer;
mod copied;
mod curves;
mod elements;
mod sides;

use std::io;

fn main(rt: HostRuntime) -> io::Result<()> {
    for line in rt.lines(rt.alloc()) {
        let line = line?;
        let text = answer::answer(rt.alloc(), line.as_str())?;
        println!(rt; "{text}")?;
    }
    Ok(())
}
