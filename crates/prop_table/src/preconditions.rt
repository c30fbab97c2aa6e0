//! How many preconditions functions have.

ghost use Rattle.std.specs.Prelude.{◌≡◌, IfOk, length};
ghost use Rattle.prop_table.specs.Points.{is_requires, requires_among, requires_of};
ghost use Rattle.prop_table.specs.inner.Counts.{requires_counts};

use c_ir::{Fun, Kind, PointClause, Program};
use sqlite_items::Items;
use std::alloc::{AllocError, Global};

fn is_requires(kind: Kind) -> bool
    ensures { result ≡ is_requires kind }
{
    matches!(kind, Kind::Requires)
}

/// How many of these clauses are preconditions.
fn count_among(clauses: &[PointClause]) -> usize
    ensures { result ≡ length (requires_among clauses.now) }
{
    let mut count = 0;
    for clause in clauses {
        if is_requires(clause.kind) {
            count += 1;
        }
    }
    count
}

/// How many preconditions a function has.
fn count_of(program: &Program, f: &Fun) -> usize
    ensures { result ≡ length (requires_of program.now f.now) }
{
    match program.points.get(f.entry.0 as usize) {
        None => 0,
        Some(info) => count_among(info.clauses.as_slice()),
    }
}

/// For each function how many preconditions it has.
pub(crate) fn counts(alloc: Global, program: &Program) -> Result<Items<usize>, AllocError>
    ensures { IfOk result (λ ns. ns ≡ requires_counts program.now program.now.fns) }
{
    let mut counts = Items::new(alloc);
    for f in program.fns.as_slice() {
        counts.push(count_of(program, f))?;
    }
    Ok(counts)
}
