//! The statement `field`.

ghost use Rattle.std.specs.Prelude.{IfOk, IfErr};
ghost use Rattle.ff_script.specs.Grammar.{IsWhole};
ghost use Rattle.ff_meaning.specs.Refusals.{UnlessMemory, IsFieldRow};
ghost use Rattle.ff_session.specs.Steps.{IsFieldAnswer};

use ff_cert::Answer;
use ff_fields::field::SmallField;
use ff_fields::fields::Field;
use ff_meaning::{Refusal, by_tables, field, field_refusal};
use ff_script::Modulus;
use std::alloc::Global;

/// The size of the field that the line names, and the field, by tables where it has them: at most 400,000 bytes.
pub fn answer_field(
    alloc: Global,
    p: u32,
    tail: &Option<Modulus>,
) -> Result<(Answer, Field), Refusal>
    requires { IsWhole tail.now }
    ensures answer { IfOk result (λ r. IsFieldAnswer p tail.now r.0 r.1) }
    ensures refused { IfErr result (UnlessMemory (IsFieldRow p tail.now)) }
{
    match field(p, tail) {
        Ok(k) => {
            let k = by_tables(alloc, k)?;
            let q = u64::from(k.size());
            Ok((Answer::FieldOf { q }, k))
        }
        Err(fault) => Err(field_refusal(alloc, fault)?),
    }
}
