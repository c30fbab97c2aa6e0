//! Printing a report.

ghost use Rattle.std.specs.Prelude.{◌≡◌, ◌≤◌, ◌++◌, IfOk, OnOk, length};
ghost use Rattle.fc_base.specs.Texts.{verdict_text};
ghost use Rattle.report_print.specs.Report.{printed, row_text, rows_text, total_text, count_of, count_text, counts_text, report_text};
ghost use Rattle.report_print.specs.inner.Rows.{row_view, rows_view, printed_one};

use c_ir::{Prop, PropTable};
use fc_base::Verdict;
use std::alloc::{AllocError, Global};

/// A printed property with its verdict.
#[derive(Clone, Copy)]
pub(crate) struct Row<'p> {
    prop: &'p Prop,
    verdict: Verdict,
}

/// The report on these properties, each with its verdict, in the order of the table: a line for each with its
/// name, its line, its verdict's word and, in parentheses, its label if it has one; then their number; and
/// then, for each verdict that some of them have, its word and how many have it. Properties of kind Dead are
/// printed and counted only if `points` is set.
#[tactic(auto, unfolding(crate::specs::Report::report_text))]
pub fn report(
    alloc: Global,
    props: &PropTable,
    verdicts: &[Verdict],
    points: bool,
) -> Result<Vec<u8>, AllocError>
    requires { length verdicts.now ≡ length props.now.rows }
    ensures { IfOk result (λ text. text.items ≡ report_text props.now.rows verdicts.now points) }
{
    let rows = printed_rows(alloc, props.rows(), verdicts, points)?;
    let mut text = Vec::new(alloc);
    push_rows(alloc, &mut text, &rows)?;
    push_total(alloc, &mut text, rows.len())?;
    push_counts(alloc, &mut text, &rows, &Verdict::all())?;
    Ok(text)
}

/// The properties that are printed, each with its verdict.
fn printed_rows<'p>(
    alloc: Global,
    props: &'p [Prop],
    verdicts: &[Verdict],
    points: bool,
) -> Result<Vec<Row<'p>>, AllocError>
    requires { length verdicts.now ≡ length props.now }
    ensures { IfOk result (λ rows. rows_view rows.items ≡ printed points props.now verdicts.now) }
{
    let mut rows = Vec::new(alloc);
    for (index, prop) in props.iter().enumerate() {
        let verdict = verdicts[index];
        push_if_printed(&mut rows, Row { prop, verdict }, points)?;
    }
    Ok(rows)
}

fn push_if_printed<'p>(
    rows: &mut Vec<Row<'p>>,
    row: Row<'p>,
    points: bool,
) -> Result<(), AllocError>
    ensures { OnOk result (rows_view rows.new.items ≡ rows_view rows.old.items ++ printed_one points (row_view row.entry)) }
{
    if points || !row.prop.kind.is_dead() {
        rows.push(row)?;
    }
    Ok(())
}

/// The lines of the properties.
fn push_rows(alloc: Global, text: &mut Vec<u8>, rows: &[Row]) -> Result<(), AllocError>
    ensures { OnOk result (text.new.items ≡ text.old.items ++ rows_text (rows_view rows.now)) }
{
    for row in rows {
        push_row(alloc, text, row)?;
    }
    Ok(())
}

#[tactic(auto, unfolding(crate::specs::Report::row_text, crate::specs::Report::row_end))]
fn push_row(alloc: Global, text: &mut Vec<u8>, row: &Row) -> Result<(), AllocError>
    ensures { OnOk result (text.new.items ≡ text.old.items ++ row_text row.now.prop.now row.now.verdict) }
{
    let name = row.prop.name.as_str();
    let line = row.prop.line.0;
    let verdict = row.verdict.text();
    let label = row.prop.label.as_str();
    let line = if label.is_empty() {
        format!(in alloc; "{name} {line} {verdict}\n")?
    } else {
        format!(in alloc; "{name} {line} {verdict} ({label})\n")?
    };
    text.extend_from_slice(line.as_bytes())
}

#[tactic(auto, unfolding(crate::specs::Report::total_text))]
fn push_total(alloc: Global, text: &mut Vec<u8>, total: usize) -> Result<(), AllocError>
    ensures { OnOk result (text.new.items ≡ text.old.items ++ total_text total) }
{
    let line = format!(in alloc; "Total {total}\n")?;
    text.extend_from_slice(line.as_bytes())
}

/// For each of these verdicts, in their order, how many rows have it, where some have.
fn push_counts(
    alloc: Global,
    text: &mut Vec<u8>,
    rows: &[Row],
    verdicts: &[Verdict],
) -> Result<(), AllocError>
    ensures { OnOk result (text.new.items ≡ text.old.items ++ counts_text (rows_view rows.now) verdicts.now) }
{
    for verdict in verdicts {
        push_count(alloc, text, *verdict, count_of(rows, *verdict))?;
    }
    Ok(())
}

#[tactic(auto, unfolding(crate::specs::Report::count_text))]
fn push_count(
    alloc: Global,
    text: &mut Vec<u8>,
    verdict: Verdict,
    count: usize,
) -> Result<(), AllocError>
    ensures { OnOk result (text.new.items ≡ text.old.items ++ count_text verdict count) }
{
    if count == 0 {
        return Ok(());
    }
    let word = verdict.text();
    let line = format!(in alloc; "  {word} {count}\n")?;
    text.extend_from_slice(line.as_bytes())
}

/// How many rows have this verdict.
fn count_of(rows: &[Row], verdict: Verdict) -> usize
    ensures value { result ≡ count_of verdict (rows_view rows.now) }
    ensures bound { result ≤ length rows.now }
{
    let mut count = 0;
    for row in rows {
        if row.verdict == verdict {
            count += 1;
        }
    }
    count
}
