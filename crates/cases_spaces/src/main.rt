//! Answers lines of known answers over function fields, from the maximal orders of both sides of a curve: a line in, a
//! line out. A line is a word, a field, a colon, and a curve's terms; or it begins with `#` and is its own answer.
#![tactic(auto)]

mod answer;
mod frames;
mod spaces;
mod texts;

use std::io;

fn main(rt: HostRuntime) -> io::Result<()> {
    for line in rt.lines(rt.alloc()) {
        let line = line?;
        let text = answer::answer(rt.alloc(), line.as_str())?;
        println!(rt; "{text}")?;
    }
    Ok(())
}
