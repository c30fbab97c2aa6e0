//! Typed programs as short texts.

use c_ir::{
    AlarmKind, CellInfo, Expr, Fun, InScope, InScopes, Init, IntType, Kind, Node, NoteSpot,
    PointInfo, Program, Skeleton, Stmt,
};
use c_types::TypeFault;
use fc_base::{BinaryOp, FnId, PointId, SiteId, UnaryOp};
use std::alloc::{AllocError, Global};

/// The part of a typed program that is shown.
#[derive(Clone, Copy)]
pub(crate) enum Part {
    Cells,
    Functions,
    /// The body of the function that is declared last.
    Body,
    Points,
    Sites,
    Notes,
    /// The body alone, of a text that is an expression.
    Expression,
    /// Nothing but that there is a program.
    Whole,
}

impl Part {
    /// The part with this name; `Whole` for another name.
    pub(crate) fn named(name: &str) -> Part {
        match name {
            "cells" => Part::Cells,
            "functions" => Part::Functions,
            "body" => Part::Body,
            "points" => Part::Points,
            "sites" => Part::Sites,
            "notes" => Part::Notes,
            "expressions" => Part::Expression,
            _ => Part::Whole,
        }
    }
}

fn type_text(ty: IntType) -> &'static str {
    match ty {
        IntType::Bool => "bool",
        IntType::Char => "char",
        IntType::SignedChar => "schar",
        IntType::UnsignedChar => "uchar",
        IntType::Short => "short",
        IntType::UnsignedShort => "ushort",
        IntType::Int => "int",
        IntType::UnsignedInt => "uint",
        IntType::Long => "long",
        IntType::UnsignedLong => "ulong",
        IntType::LongLong => "llong",
        IntType::UnsignedLongLong => "ullong",
    }
}

fn op_text(op: BinaryOp) -> &'static str {
    match op {
        BinaryOp::LogicOr => "||",
        BinaryOp::LogicAnd => "&&",
        BinaryOp::Or => "|",
        BinaryOp::Xor => "^",
        BinaryOp::And => "&",
        BinaryOp::Equal => "==",
        BinaryOp::NotEqual => "!=",
        BinaryOp::Less => "<",
        BinaryOp::Greater => ">",
        BinaryOp::LessEq => "<=",
        BinaryOp::GreaterEq => ">=",
        BinaryOp::Shl => "<<",
        BinaryOp::Shr => ">>",
        BinaryOp::Add => "+",
        BinaryOp::Sub => "-",
        BinaryOp::Mul => "*",
        BinaryOp::Div => "/",
        BinaryOp::Rem => "%",
    }
}

fn unary_text(op: UnaryOp) -> &'static str {
    match op {
        UnaryOp::Plus => "+",
        UnaryOp::Minus => "-",
        UnaryOp::Not => "!",
        UnaryOp::Invert => "~",
    }
}

/// Whether the type of an expression is shown: not that of a cell or of a conversion, and not `int`.
fn is_type_shown(e: &Expr) -> bool {
    match &e.node {
        Node::Cell { .. } | Node::Element { .. } | Node::Assign { .. } | Node::Cast { .. } => false,
        Node::Literal { .. }
        | Node::Call { .. }
        | Node::Unary { .. }
        | Node::Binary { .. }
        | Node::Cond { .. } => !matches!(e.ty, IntType::Int),
    }
}

/// Adds a text that was made.
pub(crate) fn add(out: &mut String, text: Result<String, AllocError>) -> Result<(), AllocError> {
    let text = text?;
    out.push_str(text.as_str())
}

/// The type and the site of an expression.
fn show_end(alloc: Global, out: &mut String, e: &Expr) -> Result<(), AllocError> {
    if is_type_shown(e) {
        out.push_str(":")?;
        out.push_str(type_text(e.ty))?;
    }
    if let Some(SiteId(number)) = e.site {
        add(out, format!(in alloc; "#{number}"))?;
    }
    Ok(())
}

/// What stands before the first part of an expression.
fn show_before(alloc: Global, out: &mut String, e: &Expr) -> Result<(), AllocError> {
    match &e.node {
        Node::Literal { value } => add(out, format!(in alloc; "{value}")),
        Node::Cell { cell, .. } => add(out, format!(in alloc; "c{cell}")),
        Node::Element { first, length, .. } => add(out, format!(in alloc; "c{first}/{length}[")),
        Node::Call { function, .. } => {
            let FnId(number) = *function;
            add(out, format!(in alloc; "f{number}("))
        }
        Node::Unary { op, .. } => add(out, format!(in alloc; "({}", unary_text(*op))),
        Node::Binary { .. } | Node::Cond { .. } => out.push_str("("),
        Node::Assign { .. } => Ok(()),
        Node::Cast { .. } => add(out, format!(in alloc; "({})", type_text(e.ty))),
    }
}

/// What stands after the last part of an expression.
fn text_after(e: &Expr) -> &'static str {
    match &e.node {
        Node::Cell { checked: true, .. } => "?",
        Node::Element { checked: true, .. } => "]?",
        Node::Element { .. } => "]",
        Node::Call { .. } | Node::Unary { .. } | Node::Binary { .. } | Node::Cond { .. } => ")",
        Node::Literal { .. } | Node::Cell { .. } | Node::Assign { .. } | Node::Cast { .. } => "",
    }
}

/// Expressions with commas between them.
#[cycle(show)]
fn show_all(alloc: Global, out: &mut String, all: &[Expr]) -> Result<(), AllocError> {
    let mut is_first = true;
    for e in all {
        out.push_str(if is_first { "" } else { ", " })?;
        is_first = false;
        show(alloc, out, e)?;
    }
    Ok(())
}

/// An expression: cells are `c0`, functions `f0`, sites `#0`; an element has the first cell and the length of its
/// array before its index; a conversion is its type in parentheses; `?` says that the cell that is read may have no
/// value.
#[cycle(show)]
fn show(alloc: Global, out: &mut String, e: &Expr) -> Result<(), AllocError> {
    show_before(alloc, out, e)?;
    match &e.node {
        Node::Literal { .. } | Node::Cell { .. } => {}
        Node::Element { index, .. } => show(alloc, out, index.get())?,
        Node::Call { args, .. } => show_all(alloc, out, args.as_slice())?,
        Node::Unary { of, .. } | Node::Cast { of } => show(alloc, out, of.get())?,
        Node::Binary { op, left, right } => {
            show(alloc, out, left.get())?;
            out.push_str(op_text(*op))?;
            show(alloc, out, right.get())?;
        }
        Node::Assign { to, value } => {
            show(alloc, out, to.get())?;
            out.push_str(" = ")?;
            show(alloc, out, value.get())?;
        }
        Node::Cond { cond, yes, no } => {
            show(alloc, out, cond.get())?;
            out.push_str(" ? ")?;
            show(alloc, out, yes.get())?;
            out.push_str(" : ")?;
            show(alloc, out, no.get())?;
        }
    }
    out.push_str(text_after(e))?;
    show_end(alloc, out, e)
}

/// An expression with texts before and after it.
fn show_between(
    alloc: Global,
    out: &mut String,
    before: &str,
    e: &Expr,
    after: &str,
) -> Result<(), AllocError> {
    out.push_str(before)?;
    show(alloc, out, e)?;
    out.push_str(after)
}

/// The number of a point among those of its function.
fn local_number(points: &[PointInfo], point: PointId) -> u32 {
    let Some(own) = points.get(point.0 as usize) else {
        return 1_000_000;
    };
    let mut number: u32 = 0;
    let mut place: u32 = 0;
    for other in points {
        if place >= point.0 {
            break;
        }
        if other.owner.0 == own.owner.0 {
            number = number.saturating_add(1);
        }
        place = place.saturating_add(1);
    }
    number
}

/// The number of a statement's point, and a word of the statement.
fn show_point(
    alloc: Global,
    out: &mut String,
    points: &[PointInfo],
    point: PointId,
    word: &str,
) -> Result<(), AllocError> {
    let number = local_number(points, point);
    add(out, format!(in alloc; "@{number} {word}"))
}

fn show_init(alloc: Global, out: &mut String, value: &Init) -> Result<(), AllocError> {
    match value {
        Init::Nothing => Ok(()),
        Init::One(e) => show_between(alloc, out, " = ", e, ""),
        Init::Many(all) => {
            out.push_str(" = {")?;
            show_all(alloc, out, all.as_slice())?;
            out.push_str("}")
        }
    }
}

/// A declarator: its first cell, the length of an array, and its values.
fn show_declared(
    alloc: Global,
    out: &mut String,
    first: u32,
    length: Option<u32>,
    value: &Init,
) -> Result<(), AllocError> {
    add(out, format!(in alloc; "c{first}"))?;
    if let Some(length) = length {
        add(out, format!(in alloc; "/{length}"))?;
    }
    show_init(alloc, out, value)?;
    out.push_str(";")
}

/// A statement that governs none.
fn show_simple(
    alloc: Global,
    out: &mut String,
    points: &[PointInfo],
    s: &Stmt,
) -> Result<(), AllocError> {
    match s {
        Stmt::Declare {
            point,
            first,
            length,
            value,
        } => {
            show_point(alloc, out, points, *point, "")?;
            show_declared(alloc, out, *first, *length, value)
        }
        Stmt::Expression { point, expr } => {
            show_point(alloc, out, points, *point, "")?;
            show_between(alloc, out, "", expr, ";")
        }
        Stmt::Return { point, value } => {
            show_point(alloc, out, points, *point, "return")?;
            if let Some(e) = value {
                show_between(alloc, out, " ", e, "")?;
            }
            out.push_str(";")
        }
        Stmt::Break { point } => show_point(alloc, out, points, *point, "break;"),
        Stmt::Continue { point } => show_point(alloc, out, points, *point, "continue;"),
        Stmt::Empty { point } => show_point(alloc, out, points, *point, ";"),
        Stmt::Note { at } => {
            let line = at.line.0;
            add(out, format!(in alloc; "note{line}"))
        }
        _ => out.push_str("clause"),
    }
}

/// The point and the condition of a `for`.
fn show_for_point(
    alloc: Global,
    out: &mut String,
    points: &[PointInfo],
    point: PointId,
    cond: &Option<Expr>,
) -> Result<(), AllocError> {
    out.push_str(" ")?;
    show_point(alloc, out, points, point, "")?;
    match cond {
        None => Ok(()),
        Some(e) => show_between(alloc, out, "", e, " "),
    }
}

/// What stands before the first statement that a statement governs; the whole of one that governs none.
fn show_head(
    alloc: Global,
    out: &mut String,
    s: &Stmt,
    points: &[PointInfo],
) -> Result<(), AllocError> {
    match s {
        Stmt::If { point, cond, .. } => {
            show_point(alloc, out, points, *point, "if ")?;
            show_between(alloc, out, "", cond, " ")
        }
        Stmt::While { point, cond, .. } => {
            show_point(alloc, out, points, *point, "while ")?;
            show_between(alloc, out, "", cond, " ")
        }
        Stmt::DoWhile { point, .. } => show_point(alloc, out, points, *point, "do "),
        Stmt::For { .. } => out.push_str("for "),
        Stmt::Block { .. } => Ok(()),
        _ => show_simple(alloc, out, points, s),
    }
}

/// Statements in braces.
#[cycle(show_stmts)]
fn show_stmts(
    alloc: Global,
    out: &mut String,
    all: &[Stmt],
    points: &[PointInfo],
) -> Result<(), AllocError> {
    out.push_str("{")?;
    for s in all {
        out.push_str(" ")?;
        show_stmt(alloc, out, s, points)?;
    }
    out.push_str(" }")
}

/// A statement: the number of its point in its function, and its parts. An `else` without statements isn't shown. A
/// `for` is what stands first, the point and the condition, the body, the update.
#[cycle(show_stmts)]
fn show_stmt(
    alloc: Global,
    out: &mut String,
    s: &Stmt,
    points: &[PointInfo],
) -> Result<(), AllocError> {
    show_head(alloc, out, s, points)?;
    match s {
        Stmt::If { yes, no, .. } => {
            show_stmts(alloc, out, yes.as_slice(), points)?;
            if no.is_empty() {
                return Ok(());
            }
            out.push_str(" else ")?;
            show_stmts(alloc, out, no.as_slice(), points)
        }
        Stmt::While { body, .. } => show_stmts(alloc, out, body.as_slice(), points),
        Stmt::DoWhile { body, cond, .. } => {
            show_stmts(alloc, out, body.as_slice(), points)?;
            show_between(alloc, out, " while ", cond, "")
        }
        Stmt::For {
            first,
            point,
            cond,
            body,
            update,
        } => {
            show_stmts(alloc, out, first.as_slice(), points)?;
            show_for_point(alloc, out, points, *point, cond)?;
            show_stmts(alloc, out, body.as_slice(), points)?;
            out.push_str(" ")?;
            show_stmts(alloc, out, update.as_slice(), points)
        }
        Stmt::Block { stmts } => show_stmts(alloc, out, stmts.as_slice(), points),
        _ => Ok(()),
    }
}

/// A cell: `const`, its type, its value at the start, its function, and `?` where it may have no value.
fn show_cell(alloc: Global, out: &mut String, cell: &CellInfo) -> Result<(), AllocError> {
    if cell.constant {
        out.push_str("const ")?;
    }
    out.push_str(type_text(cell.ty))?;
    if let Some(start) = cell.start {
        add(out, format!(in alloc; "={start}"))?;
    }
    if let Some(FnId(owner)) = cell.owner {
        add(out, format!(in alloc; " f{owner}"))?;
    }
    out.push_str(if cell.checked { "?" } else { "" })
}

fn show_cells(alloc: Global, out: &mut String, all: &[CellInfo]) -> Result<(), AllocError> {
    let mut is_first = true;
    for cell in all {
        out.push_str(if is_first { "" } else { ", " })?;
        is_first = false;
        show_cell(alloc, out, cell)?;
    }
    Ok(())
}

/// A function: its name, the cells of its formals and of its result, the points of its entry and its exit, and
/// whether it has a body.
fn show_function(
    alloc: Global,
    out: &mut String,
    points: &[PointInfo],
    f: &Fun,
) -> Result<(), AllocError> {
    out.push_str(f.name.as_str())?;
    out.push_str("(")?;
    let mut separator = "";
    for cell in f.formals.as_slice() {
        add(out, format!(in alloc; "{separator}c{cell}"))?;
        separator = ", ";
    }
    out.push_str(")")?;
    if let Some(cell) = f.result {
        add(out, format!(in alloc; " c{cell}"))?;
    }
    let entry = local_number(points, f.entry);
    let exit = local_number(points, f.exit);
    add(out, format!(in alloc; " @{entry}..{exit}"))?;
    out.push_str(if f.body.is_some() { " {}" } else { "" })
}

fn show_functions(alloc: Global, out: &mut String, program: &Program) -> Result<(), AllocError> {
    let mut is_first = true;
    for f in program.fns.as_slice() {
        out.push_str(if is_first { "" } else { ", " })?;
        is_first = false;
        show_function(alloc, out, program.points.as_slice(), f)?;
    }
    Ok(())
}

fn show_body(alloc: Global, out: &mut String, program: &Program) -> Result<(), AllocError> {
    match program.fns.as_slice().split_last() {
        Some(
            (
                Fun {
                    body: Some(body),
                    ..
                },
                _,
            ),
        ) => show_stmts(alloc, out, body.as_slice(), program.points.as_slice()),
        _ => out.push_str("no body"),
    }
}

/// The lines of the points of each function, with `*` where a point has clauses.
fn show_points(alloc: Global, out: &mut String, program: &Program) -> Result<(), AllocError> {
    let mut number: u32 = 0;
    for _ in program.fns.as_slice() {
        out.push_str(if number == 0 { "" } else { " " })?;
        add(out, format!(in alloc; "f{number}:"))?;
        for point in program.points.as_slice() {
            if point.owner.0 == number {
                let line = point.line.0;
                add(out, format!(in alloc; " {line}"))?;
                out.push_str(if point.clauses.is_empty() { "" } else { "*" })?;
            }
        }
        number = number.saturating_add(1);
    }
    Ok(())
}

fn show_check(out: &mut String, check: Option<AlarmKind>) -> Result<(), AllocError> {
    if let Some(kind) = check {
        out.push_str(" ")?;
        out.push_str(Kind::Alarm(kind).text())?;
    }
    Ok(())
}

/// Each site: its function and its point in it, and its checks.
fn show_sites(alloc: Global, out: &mut String, program: &Program) -> Result<(), AllocError> {
    let points = program.points.as_slice();
    let mut is_first = true;
    for site in program.sites.as_slice() {
        let owner = match points.get(site.point.0 as usize) {
            Some(point) => point.owner.0,
            None => 1_000_000,
        };
        let number = local_number(points, site.point);
        let separator = if is_first { "" } else { ", " };
        is_first = false;
        add(out, format!(in alloc; "{separator}f{owner}@{number}"))?;
        show_check(out, site.checks.first)?;
        show_check(out, site.checks.second)?;
    }
    Ok(())
}

/// Whether one of these objects has this name.
fn has_name(all: &[&InScope], name: &str) -> bool {
    for object in all {
        if object.name.as_str() == name {
            return true;
        }
    }
    false
}

/// Of the declarations in force those that no newer one hides, the newest first.
fn visible(alloc: Global, names: &InScopes) -> Result<Vec<&InScope>, AllocError> {
    let mut found = Vec::new(alloc);
    let mut rest = names.declared();
    while let Some((object, older)) = rest.split() {
        if !has_name(found.as_slice(), object.name.as_str()) {
            found.push(object)?;
        }
        rest = older;
    }
    Ok(found)
}

/// Of two objects the one with the lower first cell.
fn lower<'n>(one: Option<&'n InScope>, other: &'n InScope) -> &'n InScope {
    match one {
        Some(one) if one.first <= other.first => one,
        _ => other,
    }
}

/// The object with the lowest first cell that is no lower than this.
fn lowest_from<'n>(all: &[&'n InScope], cell: u32) -> Option<&'n InScope> {
    let mut lowest = None;
    for object in all {
        if object.first >= cell {
            lowest = Some(lower(lowest, object));
        }
    }
    lowest
}

/// The names that a place can use, in the order of their first cells.
fn names_text(alloc: Global, names: &InScopes) -> Result<String, AllocError> {
    let all = visible(alloc, names)?;
    let mut out = String::new(alloc);
    let mut cell: u32 = 0;
    for _ in all.as_slice() {
        if let Some(object) = lowest_from(all.as_slice(), cell) {
            show_object(alloc, &mut out, object)?;
            cell = object.first.saturating_add(1);
        }
    }
    Ok(out)
}

/// An object: its name, its first cell, and the length of an array.
fn show_object(alloc: Global, out: &mut String, object: &InScope) -> Result<(), AllocError> {
    let (name, first) = (object.name.as_str(), object.first);
    add(out, format!(in alloc; " {name}=c{first}"))?;
    if let Some(length) = object.length {
        add(out, format!(in alloc; "/{length}"))?;
    }
    Ok(())
}

/// A note: its line, its function, and the names that it can use; before a `for` that declares, those too that stand
/// before its head, in parentheses.
fn show_note(alloc: Global, out: &mut String, note: &NoteSpot) -> Result<(), AllocError> {
    let line = note.at.line.0;
    match note.owner {
        None => add(out, format!(in alloc; "{line} -:"))?,
        Some(FnId(owner)) => add(out, format!(in alloc; "{line} f{owner}:"))?,
    }
    let names = names_text(alloc, &note.names)?;
    let before = names_text(alloc, &note.before)?;
    out.push_str(names.as_str())?;
    if names.as_str() != before.as_str() {
        out.push_str(" (")?;
        out.push_str(before.as_str())?;
        out.push_str(" )")?;
    }
    Ok(())
}

fn show_notes(alloc: Global, out: &mut String, all: &[NoteSpot]) -> Result<(), AllocError> {
    let mut is_first = true;
    for note in all {
        out.push_str(if is_first { "" } else { "; " })?;
        is_first = false;
        show_note(alloc, out, note)?;
    }
    Ok(())
}

/// A part of a program.
pub(crate) fn show_part(
    alloc: Global,
    part: Part,
    skeleton: &Skeleton,
) -> Result<String, AllocError> {
    let mut out = String::new(alloc);
    let program = &skeleton.program;
    match part {
        Part::Cells => show_cells(alloc, &mut out, program.cells.as_slice())?,
        Part::Functions => show_functions(alloc, &mut out, program)?,
        Part::Body | Part::Expression => show_body(alloc, &mut out, program)?,
        Part::Points => show_points(alloc, &mut out, program)?,
        Part::Sites => show_sites(alloc, &mut out, program)?,
        Part::Notes => show_notes(alloc, &mut out, skeleton.notes.as_slice())?,
        Part::Whole => out.push_str("program")?,
    }
    Ok(out)
}

/// A refusal.
pub(crate) fn fault_text(alloc: Global, fault: &TypeFault) -> Result<String, AllocError> {
    match fault {
        TypeFault::Unknown(name) => named(alloc, "Unknown", name.as_str()),
        TypeFault::Twice(name) => named(alloc, "Twice", name.as_str()),
        TypeFault::Recursive(name) => named(alloc, "Recursive", name.as_str()),
        TypeFault::BadType(at) => format!(in alloc; "BadType {at}"),
        TypeFault::Arity(at) => format!(in alloc; "Arity {at}"),
        TypeFault::SideEffect(at) => format!(in alloc; "SideEffect {at}"),
        TypeFault::ConstWrite(at) => format!(in alloc; "ConstWrite {at}"),
        TypeFault::TooManyCells(count) => format!(in alloc; "TooManyCells {count}"),
        TypeFault::Memory => String::from_str(alloc, "Memory"),
    }
}

fn named(alloc: Global, kind: &str, name: &str) -> Result<String, AllocError> {
    format!(in alloc; "{kind} {name}")
}
