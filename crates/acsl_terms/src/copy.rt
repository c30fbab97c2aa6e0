//! Copies of predicates and terms.

ghost use Rattle.std.specs.Prelude.{◌≡◌, IfOk};

use c_ir::Pred;
use sqlite_items::Boxed;
use std::alloc::{AllocError, Global};

/// The same tree again, in a box.
#[cycle(copy)]
fn boxed(alloc: Global, of: &Pred) -> Result<Boxed<Pred>, AllocError>
    ensures { IfOk result (λ p. p ≡ of.now) }
{
    Boxed::new(alloc, copy(alloc, of)?)
}

/// The same tree again.
#[cycle(copy)]
pub(crate) fn copy(alloc: Global, of: &Pred) -> Result<Pred, AllocError>
    ensures { IfOk result (λ p. p ≡ of.now) }
{
    match of {
        Pred::Number { value } => Ok(Pred::Number { value: *value }),
        Pred::Cell { cell } => Ok(Pred::Cell { cell: *cell }),
        Pred::Element {
            first,
            length,
            index,
        } => Ok(Pred::Element {
            first: *first,
            length: *length,
            index: boxed(alloc, index.get())?,
        }),
        Pred::Bound { between } => Ok(Pred::Bound { between: *between }),
        Pred::Old { of } => Ok(Pred::Old {
            of: boxed(alloc, of.get())?,
        }),
        Pred::True => Ok(Pred::True),
        Pred::False => Ok(Pred::False),
        Pred::Neg { of } => Ok(Pred::Neg {
            of: boxed(alloc, of.get())?,
        }),
        Pred::Not { of } => Ok(Pred::Not {
            of: boxed(alloc, of.get())?,
        }),
        Pred::Binary { op, left, right } => Ok(Pred::Binary {
            op: *op,
            left: boxed(alloc, left.get())?,
            right: boxed(alloc, right.get())?,
        }),
        Pred::Related {
            relation,
            left,
            right,
        } => Ok(Pred::Related {
            relation: *relation,
            left: boxed(alloc, left.get())?,
            right: boxed(alloc, right.get())?,
        }),
        Pred::Forall {
            low,
            low_strict,
            high,
            high_strict,
            body,
        } => Ok(Pred::Forall {
            low: boxed(alloc, low.get())?,
            low_strict: *low_strict,
            high: boxed(alloc, high.get())?,
            high_strict: *high_strict,
            body: boxed(alloc, body.get())?,
        }),
    }
}
