//! Whole programs (C11 6.9).

ghost use Rattle.c_ir.specs.Keeps.{Keeps};

use crate::note::NoteSpots;
use crate::tree::{CellInfo, Fun, PointInfo, SiteInfo};
use sqlite_items::Items;
use std::marker::Model;

/// Functions in the order of their first declarations; a function's number is its place.
pub type Funs = Items<Fun>;

/// Cells; a cell's number is its place.
pub type CellInfos = Items<CellInfo>;

/// Points; a point's number is its place.
pub type PointInfos = Items<PointInfo>;

/// Checked operators; the number of one is its place.
pub type SiteInfos = Items<SiteInfo>;

/// A typed program: its functions, its cells, its points and its checked operators. These belong together: numbers
/// are in range, trees are typed (C11 6.5 to 6.9), each point is that of one statement, entry or exit and has the
/// clauses that may stand there, each operator is evaluated at its point with its checks, and calls end.
#[derive(Debug, Drop)]
pub struct Program {
    pub fns: Funs,
    pub cells: CellInfos,
    pub points: PointInfos,
    pub sites: SiteInfos,
}

impl Model for Program {
    ghost use Rattle.c_ir.specs.Programs.{Program};
    ghost use Rattle.std.specs.Coded.{codes};
    ghost use Rattle.c_ir.specs.Keeps.{Keeps};
    ghost use Rattle.c_ir.specs.contracts.tree.Expr as e;
    ghost use Rattle.c_ir.specs.contracts.tree.Pred as p;
    ghost use Rattle.c_ir.specs.contracts.tree.Stmt as s;

    ghost Value = { Program };

    ghost coded = { Prim.hlevel (codes, e.the_row.coded, p.the_row.coded, s.the_row.coded) };

    ghost view = { λ p. record { fns = p.fns; cells = p.cells; points = p.points; sites = p.sites } };

    ghost invariant = { λ p. Keeps (record { fns = p.fns; cells = p.cells; points = p.points; sites = p.sites }) };
}

impl Program {
    /// What each program keeps.
    pub fn keeps(&self)
        ensures { Keeps self.now }
    {
        let _ = &self.fns;
    }
}

/// A program whose notes aren't read yet: its points are those of statements, entries and exits, none has clauses,
/// and each note of a body stands in its tree. The notes are all of the text, in its order.
#[derive(Debug, Drop)]
pub struct Skeleton {
    pub program: Program,
    pub notes: NoteSpots,
}
