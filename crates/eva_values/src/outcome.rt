//! What one pass over an expression gives.

ghost use Rattle.std.specs.Prelude.{◌≡◌, IfOk};
ghost use Rattle.std.specs.Option.{option_copied};
ghost use Rattle.abs_cells.specs.Cells.{join_env};
ghost use Rattle.abs_cells.specs.Relations.{narrow_both, on_env};
ghost use Rattle.eva_values.specs.Values as values;
ghost use Rattle.eva_values.specs.Values.{env_if};
ghost use Rattle.eva_values.specs.inner.Outcomes as spec;

use crate::operators::{has_other, has_zero, logic_value, said_value, single};
use abs_cells::{Cells, Side, join, narrow, opposite};
use fc_base::{BinaryOp, Relation};
use int_value::Value;
use std::alloc::{AllocError, Global};

/// An expression as a side of a relation, and, where they were wanted, the cells for which it comes out true and
/// false.
#[derive(Drop)]
pub(crate) struct Outcome {
    pub side: Side,
    pub yes: Option<Cells>,
    pub no: Option<Cells>,
}

/// A value that names no cell.
pub(crate) fn unnamed(value: Value) -> Side
    ensures { result ≡ values.unnamed value }
{
    Side { cell: None, value }
}

impl Outcome {
    /// The cells in which the right operand is evaluated: of `&&` and `||` those for which the left one goes on.
    pub(crate) fn after<'a>(&'a self, op: BinaryOp, cells: Option<&'a Cells>) -> Option<&'a Cells>
        ensures { option_copied result ≡ spec.after (spec.goes_on op) self.now (option_copied cells.entry) }
    {
        match op {
            BinaryOp::LogicAnd => self.yes.as_ref(),
            BinaryOp::LogicOr => self.no.as_ref(),
            _ => cells,
        }
    }

    /// Of a value that is compared with 0 as a condition.
    pub(crate) fn compared(
        alloc: Global,
        cells: Option<&Cells>,
        side: Side,
        wanted: bool,
    ) -> Result<Outcome, AllocError>
        ensures { IfOk result (λ x. x ≡ spec.compared_outcome (option_copied cells.entry) side wanted) }
    {
        let zero = unnamed(single(0));
        Outcome::tested(alloc, cells, side, Relation::NotEqual, &side, &zero, wanted)
    }

    /// Of a value with the relation that tells how it narrows as a condition.
    #[tactic(auto, unfolding(crate::specs::inner::Outcomes::tested_outcome))]
    pub(crate) fn tested(
        alloc: Global,
        cells: Option<&Cells>,
        side: Side,
        relation: Relation,
        left: &Side,
        right: &Side,
        wanted: bool,
    ) -> Result<Outcome, AllocError>
        ensures { IfOk result (λ x. x ≡ spec.tested_outcome (option_copied cells.entry) side relation left.now right.now wanted) }
    {
        let may = has_other(&side.value);
        let yes = left_by(alloc, cells, (wanted, may), relation, left, right)?;
        let may = has_zero(&side.value);
        let no = left_by(alloc, cells, (wanted, may), opposite(relation), left, right)?;
        Ok(Outcome { side, yes, no })
    }

    /// Of `!` with this operand.
    #[tactic(auto, unfolding(crate::specs::inner::Outcomes::negated_outcome))]
    pub(crate) fn negated(self) -> Outcome
        ensures { result ≡ spec.negated_outcome self }
    {
        let value = said_value(self.side.value.equal(&single(0)));
        Outcome {
            side: unnamed(value),
            yes: kept_if(has_other(&value), self.no),
            no: kept_if(has_zero(&value), self.yes),
        }
    }

    /// Of `&&` and `||` with these operands; the right one was evaluated where the left one goes on.
    #[tactic(auto, unfolding(crate::specs::inner::Outcomes::logic_outcome))]
    pub(crate) fn logic(
        alloc: Global,
        goes: bool,
        left: Outcome,
        right: Outcome,
        wanted: bool,
    ) -> Result<Outcome, AllocError>
        ensures { IfOk result (λ x. x ≡ spec.logic_outcome goes left right wanted) }
    {
        let value = logic_value(goes, &left.side.value, &right.side.value);
        if goes {
            let no = joined_if(alloc, (wanted, has_zero(&value)), &left.no, &right.no)?;
            Ok(Outcome {
                side: unnamed(value),
                yes: kept_if(has_other(&value), right.yes),
                no,
            })
        } else {
            let yes = joined_if(alloc, (wanted, has_other(&value)), &left.yes, &right.yes)?;
            Ok(Outcome {
                side: unnamed(value),
                yes,
                no: kept_if(has_zero(&value), right.no),
            })
        }
    }
}

/// The cells after a relation, if they are wanted and it may hold.
fn left_by(
    alloc: Global,
    cells: Option<&Cells>,
    wanted: (bool, bool),
    relation: Relation,
    left: &Side,
    right: &Side,
) -> Result<Option<Cells>, AllocError>
    ensures { IfOk result (λ e. e ≡ env_if wanted.0 (env_if wanted.1
        (on_env (narrow_both relation left.now right.now) (option_copied cells.entry)))) }
{
    match (wanted, cells) {
        ((true, true), Some(cells)) => narrow(cells.copy(alloc)?, relation, left, right),
        _ => Ok(None),
    }
}

fn kept_if(wanted: bool, cells: Option<Cells>) -> Option<Cells>
    ensures { result ≡ env_if wanted cells }
{
    if wanted { cells } else { None }
}

/// The join of both, if it is wanted and the condition may come out so.
fn joined_if(
    alloc: Global,
    wanted: (bool, bool),
    left: &Option<Cells>,
    right: &Option<Cells>,
) -> Result<Option<Cells>, AllocError>
    ensures { IfOk result (λ e. e ≡ env_if wanted.0 (env_if wanted.1 (join_env left.now right.now))) }
{
    match wanted {
        (true, true) => join(alloc, left.as_ref(), right.as_ref()),
        _ => Ok(None),
    }
}
