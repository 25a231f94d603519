//! What the statements so far have bound.

ghost use Rattle.std.specs.Prelude.{◌≡◌, IfOk, IfErr, OnOk, OnErr};
ghost use Rattle.ff_fields.specs.Fields.{field_of};
ghost use Rattle.ff_fields.specs.FieldData.{data_of};
ghost use Rattle.ff_script.specs.Printing.{IsWritable};
ghost use Rattle.ff_meaning.specs.Bindings.{nothing, with_field, with_places, IsInPlace, HasSmallPowers};
ghost use Rattle.ff_meaning.specs.Refusals.{UnlessMemory, IsRefusalRow};
ghost use Rattle.ff_session.specs.Bound.{bindings_after, MayTake};
ghost use Rattle.ff_session.specs.FunctionFields.{IsFunctionField};
ghost use Rattle.ff_session.specs.Steps.{IsAnswered};

use crate::curves::FunctionField;
use crate::names::Names;
use crate::statements::constants::written_constants;
use crate::statements::curve::answer_curve;
use crate::statements::factor::factors_of;
use crate::statements::field::answer_field;
use crate::statements::mul::product;
use crate::statements::order::integral_rows;
use crate::statements::place::named_place;
use crate::statements::places::all_places;
use ff_cert::Answer;
use ff_fields::fields::Field;
use ff_ideal::Prime;
use ff_meaning::Refusal;
use ff_rr::genus;
use ff_script::{Name, Statement};
use std::alloc::{AllocError, Global};
use std::marker::Model;

/// What stands over the field: a curve with its function field, and the names of its places.
#[derive(Drop)]
pub(crate) struct Bound {
    over: FunctionField,
    names: Names,
}

impl Bound {
    /// The same curve and names, in memory of their own.
    fn copy(&self, alloc: Global) -> Result<Bound, AllocError>
        ensures { IfOk result (λ b. b ≡ self.now) }
    {
        let over = self.over.copy(alloc)?;
        let names = self.names.copy(alloc)?;
        Ok(Bound { over, names })
    }
}

/// What a statement binds: nothing, a field, a curve over the field, or a name to a place of the curve.
#[derive(Drop)]
pub(crate) enum Change {
    Nothing,
    Field { k: Field },
    Curve { over: FunctionField },
    Place { name: Name, place: Prime },
}

/// A field, and what stands over it.
#[derive(Drop)]
pub(crate) struct Bindings {
    field: Option<Field>,
    bound: Option<Bound>,
}

impl Model for Bindings {
    ghost use Rattle.ff_meaning.specs.Bindings.{Bindings};
    ghost use Rattle.ff_session.specs.Bound.{field_data, what_is_bound, IsSound};

    ghost Value = { Bindings };

    ghost view = { λ b. record { field = field_data b.field; bound = what_is_bound b.bound } };

    ghost invariant = { λ b. IsSound b.field b.bound };
}

/// An equal field, or none.
fn copy_field(alloc: Global, field: &Option<Field>) -> Result<Option<Field>, AllocError>
    ensures { IfOk result (λ f. f ≡ field.now) }
{
    match field {
        Some(k) => Ok(Some(k.copy(alloc)?)),
        None => Ok(None),
    }
}

/// An equal curve with its names, or none.
fn copy_bound(alloc: Global, bound: &Option<Bound>) -> Result<Option<Bound>, AllocError>
    ensures { IfOk result (λ b. b ≡ bound.now) }
{
    match bound {
        Some(b) => Ok(Some(b.copy(alloc)?)),
        None => Ok(None),
    }
}

impl Bindings {
    /// Nothing is bound. No memory is taken.
    pub(crate) fn new() -> Bindings
        ensures { result ≡ nothing }
    {
        Bindings {
            field: None,
            bound: None,
        }
    }

    /// Equal bindings, in memory of their own.
    pub(crate) fn copy(&self, alloc: Global) -> Result<Bindings, AllocError>
        ensures { IfOk result (λ b. b ≡ self.now) }
    {
        let field = copy_field(alloc, &self.field)?;
        let bound = copy_bound(alloc, &self.bound)?;
        Ok(Bindings { field, bound })
    }

    /// Takes in what a statement binds.
    pub(crate) fn take(&mut self, alloc: Global, change: Change) -> Result<(), AllocError>
        requires { MayTake self.old change }
        ensures taken { OnOk result (self.new ≡ bindings_after self.old change) }
        ensures unchanged { OnErr result (self.new ≡ self.old) }
    {
        match change {
            Change::Nothing => {}
            Change::Field { k } => self.field = Some(k),
            Change::Curve { over } => {
                let names = Names::new(alloc);
                self.bound = Some(Bound { over, names });
            }
            Change::Place { name, place } => match &mut self.bound {
                Some(b) => b.names.bind(name, place)?,
                None => unreachable!(),
            },
        }
        Ok(())
    }

    /// The true answer to a statement, and what it binds, or the row that refuses it.
    pub(crate) fn answer(&self, alloc: Global, s: &Statement) -> Result<(Answer, Change), Refusal>
        requires in_place { IsInPlace self.now s.now }
        requires spelled { IsWritable s.now }
        requires powers { HasSmallPowers s.now }
        ensures answer { IfOk result (λ r. IsAnswered self.now s.now r.0 r.1) }
        ensures refused { IfErr result (UnlessMemory (IsRefusalRow self.now s.now)) }
    {
        let Some(k) = &self.field else {
            return answer_on_nothing(alloc, s);
        };
        match &self.bound {
            Some(b) => answer_on_curve(alloc, k, b, s),
            None => answer_on_field(alloc, k, s),
        }
    }
}

/// The true answer to a statement before all others, or the row that refuses it.
fn answer_on_nothing(alloc: Global, s: &Statement) -> Result<(Answer, Change), Refusal>
    requires in_place { IsInPlace nothing s.now }
    requires spelled { IsWritable s.now }
    ensures answer { IfOk result (λ r. IsAnswered nothing s.now r.0 r.1) }
    ensures refused { IfErr result (UnlessMemory (IsRefusalRow nothing s.now)) }
{
    let Statement::FieldOf { p, tail } = s else {
        unreachable!()
    };
    let (answer, k) = answer_field(alloc, *p, tail)?;
    Ok((answer, Change::Field { k }))
}

/// The true answer to a statement over the field, or the row that refuses it.
fn answer_on_field(alloc: Global, k: &Field, s: &Statement) -> Result<(Answer, Change), Refusal>
    requires in_place { IsInPlace (with_field (data_of k.now)) s.now }
    requires powers { HasSmallPowers s.now }
    ensures answer { IfOk result (λ r. IsAnswered (with_field (data_of k.now)) s.now r.0 r.1) }
    ensures refused { IfErr result (UnlessMemory (IsRefusalRow (with_field (data_of k.now)) s.now)) }
{
    let Statement::CurveOf { f } = s else {
        unreachable!()
    };
    let (answer, over) = answer_curve(alloc, k, f)?;
    Ok((answer, Change::Curve { over }))
}

/// The true answer to a statement over the curve, and what it binds, or the row that refuses it.
fn answer_on_curve(
    alloc: Global,
    k: &Field,
    b: &Bound,
    s: &Statement,
) -> Result<(Answer, Change), Refusal>
    requires sound { IsFunctionField (field_of k.now) b.now.over }
    requires in_place { IsInPlace (with_places (data_of k.now) b.now.over.frame.curve b.now.names) s.now }
    requires spelled { IsWritable s.now }
    requires powers { HasSmallPowers s.now }
    ensures answer { let old = with_places (data_of k.now) b.now.over.frame.curve b.now.names in
        IfOk result (λ r. IsAnswered old s.now r.0 r.1) }
    ensures refused { let old = with_places (data_of k.now) b.now.over.frame.curve b.now.names in
        IfErr result (UnlessMemory (IsRefusalRow old s.now)) }
{
    match s {
        Statement::Mul { a, b: other } => {
            let element = product(alloc, k, b.over.frame.curve().fin(), a, other)?;
            Ok((Answer::Mul { element }, Change::Nothing))
        }
        Statement::Factor { g } => {
            let (unit, parts) = factors_of(alloc, k, g)?;
            Ok((Answer::Factor { unit, parts }, Change::Nothing))
        }
        Statement::OrderOf { side } => {
            let rows = integral_rows(alloc, k, &b.over.frame, *side)?;
            Ok((Answer::OrderOf { rows }, Change::Nothing))
        }
        Statement::Places { over } => {
            let (count, places) = all_places(alloc, k, &b.over.frame, over)?;
            Ok((Answer::Places { count, places }, Change::Nothing))
        }
        Statement::Place { name, over, index } => {
            let frame = &b.over.frame;
            let (place, prime) = named_place(alloc, k, frame, &b.names, name, over, *index)?;
            let name = name.copy(alloc)?;
            Ok((
                Answer::Place { place },
                Change::Place { name, place: prime },
            ))
        }
        Statement::Constants => {
            let (dimension, functions) = written_constants(alloc, &b.over.constants)?;
            let answer = Answer::Constants {
                dimension,
                functions,
            };
            Ok((answer, Change::Nothing))
        }
        Statement::Genus => {
            let genus = u64::from(genus(k, &b.over.frame, &b.over.constants));
            Ok((Answer::Genus { genus }, Change::Nothing))
        }
        _ => unreachable!(),
    }
}
