//! Reads a script, line by line.

ghost use Rattle.std.specs.Prelude.{◌≡◌, ◌↔◌, ◌<◌, ◌^◌, ℕ, suc, List, [], ◌∷◌, ◌++◌, length, position, ◌==◌, IsTrue, IfOk, IfErr, OnOk};
ghost use Rattle.ff_script.specs.declared.script.Statement.{Statement};
ghost use Rattle.ff_script.specs.Grammar.{SpellsLine};
ghost use Rattle.ff_script.specs.Scripts.{lines_of, MayFollow, IsScript, IsScriptFault, GivesScript};
ghost use Rattle.ff_script.specs.Reading.{IsSoFar, IsLineFault};

use crate::fault::ScriptFault;
use crate::reading::{is_skipped, read_statement};
use crate::script::Statement;
use std::alloc::{AllocError, Global};

/// What the lines so far came to: their statements, or the first line whose statement stands out of order.
#[derive(Drop)]
struct Progress {
    statements: Vec<Statement>,
    misplaced: Option<u32>,
}

/// The statement may stand behind so many others.
fn may_follow(count: usize, s: &Statement) -> bool
    ensures { IsTrue result ↔ MayFollow count s.now }
{
    match s {
        Statement::FieldOf { .. } => count == 0,
        Statement::CurveOf { .. } => count == 1,
        _ => count >= 2,
    }
}

impl Progress {
    /// Takes the statement of line n.
    fn add(&mut self, n: u32, s: Statement) -> Result<(), AllocError>
        ensures { OnOk result ((lines : List (List ℕ)) (line : List ℕ) → n ≡ suc (length lines) → SpellsLine s line
            → IsSoFar lines self.old.statements.items self.old.misplaced
            → IsSoFar (lines ++ line ∷ []) self.new.statements.items self.new.misplaced) }
    {
        if self.misplaced.is_some() {
            return Ok(());
        }
        if !may_follow(self.statements.len(), &s) {
            self.misplaced = Some(n);
            return Ok(());
        }
        self.statements.push(s)?;
        Ok(())
    }

    /// Takes line n.
    fn take(&mut self, alloc: Global, n: u32, line: &[u8]) -> Result<(), ScriptFault>
        ensures ok { OnOk result ((lines : List (List ℕ)) → n ≡ suc (length lines)
            → IsSoFar lines self.old.statements.items self.old.misplaced
            → IsSoFar (lines ++ line.now ∷ []) self.new.statements.items self.new.misplaced) }
        ensures fault { IfErr result (IsLineFault line.now n) }
    {
        if is_skipped(line) {
            return Ok(());
        }
        match read_statement(alloc, line)? {
            Some(s) => {
                self.add(n, s)?;
                Ok(())
            }
            None => Err(ScriptFault::Syntax(n)),
        }
    }
}

/// The position of the first line feed.
fn line_end(bytes: &[u8]) -> Option<usize>
    ensures { result ≡ position (λ b. b == 10) bytes.now }
{
    bytes.iter().position(|b| *b == b'\n')
}

/// The first line, and what stands behind its line feed.
fn first_line(bytes: &[u8]) -> (&[u8], &[u8])
    requires { 0 < length bytes.now }
    ensures line { lines_of bytes.now ≡ result.0.now ∷ lines_of result.1.now }
    ensures shorter { length result.1.now < length bytes.now }
{
    match line_end(bytes) {
        Some(end) => (&bytes[..end], &bytes[end + 1..]),
        None => (bytes, &bytes[bytes.len()..]),
    }
}

/// The statements of a script, or the first line that isn't in the grammar, or else the first line whose statement may
/// not stand there. Linear in the bytes.
pub fn parse(alloc: Global, bytes: &[u8]) -> Result<Vec<Statement>, ScriptFault>
    requires { length bytes.now < 2 ^ 32 }
    // What is read is what the bytes are a script of.
    ensures found { IfOk result (λ ss. IsScript bytes.now ss.items) }
    // Where nothing is read, the fault is there.
    ensures fault { IfErr result (IsScriptFault bytes.now) }
    // A script is read, unless memory runs out.
    ensures only { (ss : List Statement) → IsScript bytes.now ss → GivesScript result ss }
{
    let mut progress = Progress {
        statements: Vec::new(alloc),
        misplaced: None,
    };
    let mut count = 0;
    let mut rest = bytes;
    while !rest.is_empty() {
        let (line, behind) = first_line(rest);
        count += 1;
        progress.take(alloc, count, line)?;
        rest = behind;
    }
    match progress.misplaced {
        Some(n) => Err(ScriptFault::Misplaced(n)),
        None => Ok(progress.statements),
    }
}
