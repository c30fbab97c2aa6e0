//! That the numbers of a program's operators fit into 32 bits. Each stands in a tree of the program, in 32 bits, so
//! these functions go through the trees; they answer nothing.

ghost use Rattle.std.specs.Prelude.{◌≤◌, ◌^◌};
ghost use Rattle.c_ir.specs.Numbers.{own_site, sites, sites_of_all, sites_if, init_sites, stmt_sites, stmt_sites_of_all};
ghost use Rattle.prop_table.specs.inner.Fitting.{top, fns_top};

use c_ir::{Expr, Fun, Init, Node, Stmt};
use fc_base::SiteId;

/// The numbers of the operators of all functions fit.
pub(crate) fn see_fns(fns: &[Fun])
    ensures { fns_top fns.now ≤ 2 ^ 32 }
{
    for f in fns {
        if let Some(body) = &f.body {
            see_stmts(body.as_slice());
        }
    }
}

#[cycle(stmts)]
fn see_stmts(all: &[Stmt])
    ensures { top (stmt_sites_of_all all.now) ≤ 2 ^ 32 }
{
    for s in all {
        see_stmt(s);
    }
}

#[cycle(stmts)]
fn see_stmt(s: &Stmt)
    ensures { top (stmt_sites s.now) ≤ 2 ^ 32 }
{
    match s {
        Stmt::Declare { value, .. } => see_init(value),
        Stmt::Expression { expr, .. } => see(expr),
        Stmt::If { cond, yes, no, .. } => {
            see(cond);
            see_stmts(yes.as_slice());
            see_stmts(no.as_slice());
        }
        Stmt::While { cond, body, .. } => {
            see(cond);
            see_stmts(body.as_slice());
        }
        Stmt::DoWhile { body, cond, .. } => {
            see_stmts(body.as_slice());
            see(cond);
        }
        Stmt::For {
            first,
            cond,
            body,
            update,
            ..
        } => {
            see_stmts(first.as_slice());
            see_if(cond);
            see_stmts(body.as_slice());
            see_stmts(update.as_slice());
        }
        Stmt::Return { value, .. } => see_if(value),
        Stmt::Block { stmts } => see_stmts(stmts.as_slice()),
        Stmt::Break { .. }
        | Stmt::Continue { .. }
        | Stmt::Empty { .. }
        | Stmt::Note { .. }
        | Stmt::Clause { .. } => {}
    }
}

fn see_if(e: &Option<Expr>)
    ensures { top (sites_if e.now) ≤ 2 ^ 32 }
{
    if let Some(e) = e {
        see(e);
    }
}

fn see_init(value: &Init)
    ensures { top (init_sites value.now) ≤ 2 ^ 32 }
{
    match value {
        Init::Nothing => {}
        Init::One(e) => see(e),
        Init::Many(all) => see_all(all.as_slice()),
    }
}

#[cycle(exprs)]
fn see(e: &Expr)
    ensures { top (sites e.now) ≤ 2 ^ 32 }
{
    see_site(e.site);
    match &e.node {
        Node::Literal { .. } | Node::Cell { .. } => {}
        Node::Element { index, .. } => see(index.get()),
        Node::Call { args, .. } => see_all(args.as_slice()),
        Node::Unary { of, .. } | Node::Cast { of } => see(of.get()),
        Node::Binary { left, right, .. } => {
            see(left.get());
            see(right.get());
        }
        Node::Assign { to, value } => {
            see(to.get());
            see(value.get());
        }
        Node::Cond { cond, yes, no } => {
            see(cond.get());
            see(yes.get());
            see(no.get());
        }
    }
}

#[cycle(exprs)]
fn see_all(all: &[Expr])
    ensures { top (sites_of_all all.now) ≤ 2 ^ 32 }
{
    for e in all {
        see(e);
    }
}

/// The number of an operator fits.
fn see_site(site: Option<SiteId>)
    ensures { top (own_site site) ≤ 2 ^ 32 }
{
    match site {
        None => {}
        Some(SiteId(_)) => {}
    }
}
