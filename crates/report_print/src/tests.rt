ghost use Rattle.std.specs.Prelude.{◌≡◌, ◌≤◌, IfOk, length};

use super::report;
use c_ir::{AlarmKind, Kind, Prop, PropTable};
use fc_base::{Bounded, FnId, Line, PointId, PropId, Verdict};
use sqlite_items::Items;
use std::alloc::{AllocError, Global};
use std::test::Fail;

fn prop(
    alloc: Global,
    number: u32,
    kind: Kind,
    line: u32,
    name: &str,
    label: &str,
) -> Result<Prop, AllocError>
    requires name { length name.now ≤ 512 }
    requires label { length label.now ≤ 256 }
{
    Ok(Prop {
        id: PropId(number),
        kind,
        function: FnId(0),
        point: PointId(number),
        line: Line(line),
        firm: kind.is_firm(),
        site: None,
        name: Bounded::new(alloc, name)?,
        label: Bounded::new(alloc, label)?,
    })
}

fn four_props(alloc: Global) -> Result<PropTable, AllocError>
    ensures { IfOk result (λ table. length table.rows ≡ 4) }
{
    let overflow = Kind::Alarm(AlarmKind::SignedOverflow);
    let mut rows = Items::new(alloc);
    rows.push(prop(alloc, 0, overflow, 2, "main@2/signed_overflow/0", "")?)?;
    rows.push(prop(alloc, 1, Kind::Dead, 2, "main@2/dead/0", "")?)?;
    rows.push(prop(alloc, 2, Kind::Assert, 3, "main@3/assert/0", "a")?)?;
    rows.push(prop(alloc, 3, Kind::Check, 14, "main@5/check/0", "")?)?;
    PropTable::new(alloc, rows, Items::from_slice(alloc, &[true])?)
}

const VERDICTS: [Verdict; 4] = [
    Verdict::NeverTried,
    Verdict::Inconsistent,
    Verdict::ValidUnderHyp,
    Verdict::NeverTried,
];

const WITHOUT_POINTS: &str = "main@2/signed_overflow/0 2 Never_tried
main@3/assert/0 3 Valid_under_hyp (a)
main@5/check/0 14 Never_tried
Total 3
  Never_tried 2
  Valid_under_hyp 1
";

const WITH_POINTS: &str = "main@2/signed_overflow/0 2 Never_tried
main@2/dead/0 2 Inconsistent
main@3/assert/0 3 Valid_under_hyp (a)
main@5/check/0 14 Never_tried
Total 4
  Never_tried 2
  Valid_under_hyp 1
  Inconsistent 1
";

fn reports(alloc: Global, points: bool, want: &str) -> Result<bool, AllocError> {
    let text = report(alloc, &four_props(alloc)?, &VERDICTS, points)?;
    Ok(text.as_slice() == want.as_bytes())
}

fn reports_nothing(alloc: Global) -> Result<bool, AllocError> {
    let table = PropTable::new(alloc, Items::new(alloc), Items::new(alloc))?;
    let text = report(alloc, &table, &[], true)?;
    Ok(text.as_slice() == b"Total 0\n".as_slice())
}

#[test]
fn a_report_is_so(rt: HostRuntime) -> Result<(), Fail> {
    let holds = reports(rt.alloc(), false, WITHOUT_POINTS)?;
    assert!(rt; holds, "without points");
    let holds = reports(rt.alloc(), true, WITH_POINTS)?;
    assert!(rt; holds, "with points");
    let holds = reports_nothing(rt.alloc())?;
    assert!(rt; holds, "of no property");
    Ok(())
}
