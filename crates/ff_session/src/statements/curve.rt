//! The statement `curve`.

ghost use Rattle.std.specs.Prelude.{◌≡◌, All, IfOk, IfErr, OnOk};
ghost use Rattle.ring_lemmas.specs.Ring.{IsField};
ghost use Rattle.function_field.specs.Curves.{IsCurve};
ghost use Rattle.function_field.specs.Values.{functions};
ghost use Rattle.ff_text.specs.Values.{HasSmallExponents};
ghost use Rattle.ff_rr.specs.Frames.{IsFrame};
ghost use Rattle.ff_rr.specs.Constants.{IsConstantSpace};
ghost use Rattle.ff_meaning.specs.Refusals.{UnlessMemory, IsNoCurve};
ghost use Rattle.ff_session.specs.FunctionFields.{IsFunctionField};
ghost use Rattle.ff_session.specs.Steps.{IsCurveAnswer, IsReducibleRow};

use crate::curves::FunctionField;
use ff_algebra::Side;
use ff_algebra::curve::Curve;
use ff_cert::{Answer, degree_of_rows};
use ff_fields::field::SmallField;
use ff_maximal::maximal_order;
use ff_meaning::{Refusal, sum};
use ff_rr::{Frame, SpaceBasis, constants, idempotents_of};
use ff_text::TermList;
use std::alloc::{AllocError, Global};

/// The curve with the maximal orders of both sides.
fn frame_of<K: SmallField>(alloc: Global, k: &K, curve: Curve) -> Result<Frame, AllocError>
    requires { IsCurve (K.field k.now) curve }
    ensures frame { IfOk result (IsFrame (K.field k.now)) }
    ensures curve { IfOk result (λ f. f.curve ≡ curve) }
{
    let fin = maximal_order(alloc, k, &curve, Side::Finite)?;
    let inf = maximal_order(alloc, k, &curve, Side::Infinite)?;
    Ok(Frame::new(curve, fin, inf))
}

/// That the functions are a field, or the first of their idempotents other than 0 and 1, by their texts.
fn refuse_reducible<K: SmallField>(
    alloc: Global,
    k: &K,
    frame: &Frame,
    constants: &SpaceBasis,
) -> Result<(), Refusal>
    requires frame { IsFrame (K.field k.now) frame.now }
    requires constants { IsConstantSpace (K.field k.now) frame.now constants.now }
    ensures field { OnOk result (IsField (functions (K.field k.now) frame.now.curve.fin).ops) }
    ensures refused { IfErr result (UnlessMemory (IsReducibleRow (K.field k.now) frame.now.curve.fin)) }
{
    let mut list = idempotents_of(alloc, k, frame, constants)?;
    if list.is_empty() {
        return Ok(());
    }
    let degree = degree_of_rows(list.as_slice());
    prove!(degree <= usize::MAX);
    Err(Refusal::Reducible(list.swap_remove(0)))
}

/// The curve with what is computed of it once, or why its functions are no field.
fn function_field_of<K: SmallField>(
    alloc: Global,
    k: &K,
    curve: Curve,
) -> Result<FunctionField, Refusal>
    requires { IsCurve (K.field k.now) curve }
    ensures field { IfOk result (IsFunctionField (K.field k.now)) }
    ensures curve { IfOk result (λ f. f.frame.curve ≡ curve) }
    ensures refused { IfErr result (UnlessMemory (IsReducibleRow (K.field k.now) curve.fin)) }
{
    let frame = frame_of(alloc, k, curve)?;
    let constants = constants(alloc, k, &frame)?;
    refuse_reducible(alloc, k, &frame, &constants)?;
    Ok(FunctionField { frame, constants })
}

/// The degree in y and the infinity number of the curve of the terms, and the curve with its function field. It takes
/// the time of `maximal_order` on both sides, and of `constants` and `idempotents_of`.
pub fn answer_curve<K: SmallField>(
    alloc: Global,
    k: &K,
    f: &TermList,
) -> Result<(Answer, FunctionField), Refusal>
    requires { All HasSmallExponents f.now }
    ensures answer { IfOk result (λ r. IsCurveAnswer (K.field k.now) f.now r.0 r.1) }
    ensures refused { IfErr result (UnlessMemory (IsNoCurve (K.field k.now) f.now)) }
{
    let sum = sum(alloc, k, f)?;
    let curve = Curve::new(alloc, k, &sum)?;
    let n = curve.fin().n() as u64;
    let c = u64::from(curve.c());
    let over = function_field_of(alloc, k, curve)?;
    Ok((Answer::CurveOf { n, c }, over))
}
