//! The properties of a program, in the order of their table.

ghost use Rattle.std.specs.Prelude.{◌≡◌, ◌<◌, ◌≤◌, ◌+◌, ◌∷◌, [], ℕ, IfOk, OnOk, length, map, get_or, replicate, slice_get, Some};
ghost use Rattle.prop_table.specs.Rows.{Row, name_text, kind_number, plain, of_clause, alarm, alarms_of, alarms, call_requires, claims_at, point_rows, points_rows, fn_rows, fns_rows, rows_of, rows_behind, is_defined, defined_of};
ghost use Rattle.prop_table.specs.Points.{requires_at};
ghost use Rattle.prop_table.specs.inner.Counts.{check_count, site_count, alarms_count, calls_count, info_count, point_count, fn_count, fns_count};
ghost use Rattle.prop_table.specs.inner.Index.{IsIndex};
ghost use Rattle.prop_table.specs.inner.Numbered.{spot_of, labelled, Adds, AddsRows};

use crate::index::Index;
use crate::state::{At, Plain, Rows};
use c_ir::{AlarmKind, Fun, Kind, PointClause, PointInfo, Program, Prop};
use fc_base::{FnId, Line, Name, PointId, PropId, PropName, SiteId};
use sqlite_items::Items;
use std::alloc::{AllocError, Global};

/// The name of a property.
#[tactic(auto, unfolding(crate::specs::Rows::name_text))]
fn name_of(
    alloc: Global,
    function: &Name,
    point: u32,
    kind: Kind,
    count: u32,
) -> Result<PropName, AllocError>
    ensures { IfOk result (λ name. name ≡ name_text function.now point kind count) }
{
    let text = format!(in alloc; "{}@{point}/{}/{count}", function.as_str(), kind.text())?;
    PropName::new(alloc, text.as_str())
}

/// A number for each kind.
fn number_of(kind: Kind) -> usize
    ensures value { result ≡ kind_number kind }
    ensures bound { result < 13 }
{
    match kind {
        Kind::Requires => 0,
        Kind::CallRequires => 1,
        Kind::Ensures => 2,
        Kind::Assert => 3,
        Kind::Check => 4,
        Kind::Admit => 5,
        Kind::LoopInvariant => 6,
        Kind::Alarm(AlarmKind::DivisionByZero) => 7,
        Kind::Alarm(AlarmKind::SignedOverflow) => 8,
        Kind::Alarm(AlarmKind::Shift) => 9,
        Kind::Alarm(AlarmKind::IndexBound) => 10,
        Kind::Alarm(AlarmKind::Initialization) => 11,
        Kind::Dead => 12,
    }
}

impl Rows {
    /// No property.
    fn new(alloc: Global) -> Rows
        ensures { result.rows ≡ [] }
    {
        Rows {
            rows: Items::new(alloc),
            counts: [0; 13],
        }
    }

    /// Goes on to another point.
    fn begin(&mut self)
        ensures rows { self.new.rows ≡ self.old.rows }
        ensures counts { self.new.counts ≡ replicate 13 0 }
    {
        self.counts = [0; 13];
    }

    /// One property more.
    fn push(
        &mut self,
        alloc: Global,
        at: &At<'_>,
        claim: Plain,
        label: &str,
    ) -> Result<(), AllocError>
        requires room { length self.old.rows < 65536 }
        requires label { length label.now ≤ 256 }
        ensures { OnOk result (Adds self.old self.new (spot_of at.now) (labelled claim label.now ∷ [])) }
    {
        let number = number_of(claim.kind);
        let count = self.counts[number];
        let point = at.point.0.saturating_sub(at.fun.entry.0);
        let prop = Prop {
            id: PropId(self.rows.len() as u32),
            kind: claim.kind,
            function: at.function,
            point: at.point,
            line: claim.line,
            firm: claim.kind.is_firm(),
            site: claim.site,
            name: name_of(alloc, &at.fun.name, point, claim.kind, count)?,
            label: Name::new(alloc, label)?,
        };
        self.rows.push(prop)?;
        self.counts[number] += 1;
        Ok(())
    }

    /// A property for each of these clauses.
    fn push_clauses(
        &mut self,
        alloc: Global,
        at: &At<'_>,
        clauses: &[PointClause],
    ) -> Result<(), AllocError>
        requires room { length self.old.rows + length clauses.now ≤ 65536 }
        ensures { OnOk result (Adds self.old self.new (spot_of at.now) (map of_clause clauses.now)) }
    {
        for clause in clauses {
            let claim = Plain {
                kind: clause.kind,
                line: clause.line,
                site: None,
            };
            self.push(alloc, at, claim, clause.label.as_str())?;
        }
        Ok(())
    }

    /// A property for a check, if there is one.
    fn push_check(
        &mut self,
        alloc: Global,
        at: &At<'_>,
        site: u32,
        check: Option<AlarmKind>,
    ) -> Result<(), AllocError>
        requires room { length self.old.rows + check_count check ≤ 65536 }
        ensures { OnOk result (Adds self.old self.new (spot_of at.now) (alarm at.now.line site check)) }
    {
        match check {
            None => Ok(()),
            Some(kind) => {
                let claim = Plain {
                    kind: Kind::Alarm(kind),
                    line: at.line,
                    site: Some(SiteId(site)),
                };
                self.push(alloc, at, claim, "")
            }
        }
    }

    /// A property for each check of an operator.
    fn push_site(
        &mut self,
        alloc: Global,
        at: &At<'_>,
        program: &Program,
        site: u32,
    ) -> Result<(), AllocError>
        requires room { length self.old.rows + site_count (slice_get program.now.sites site) ≤ 65536 }
        ensures { OnOk result (Adds self.old self.new (spot_of at.now) (alarms_of at.now.line site (slice_get program.now.sites site))) }
    {
        match program.sites.get(site as usize) {
            None => Ok(()),
            Some(info) => {
                self.push_check(alloc, at, site, info.checks.first)?;
                self.push_check(alloc, at, site, info.checks.second)
            }
        }
    }

    /// A property for each check of these operators.
    fn push_sites(
        &mut self,
        alloc: Global,
        at: &At<'_>,
        program: &Program,
        sites: &[u32],
    ) -> Result<(), AllocError>
        requires room { length self.old.rows + alarms_count program.now sites.now ≤ 65536 }
        ensures { OnOk result (Adds self.old self.new (spot_of at.now) (alarms program.now at.now.line sites.now)) }
    {
        for site in sites {
            self.push_site(alloc, at, program, *site)?;
        }
        Ok(())
    }

    /// So many preconditions of one callee.
    fn push_call(&mut self, alloc: Global, at: &At<'_>, count: usize) -> Result<(), AllocError>
        requires room { length self.old.rows + count ≤ 65536 }
        ensures { OnOk result (Adds self.old self.new (spot_of at.now) (replicate count (plain Kind.CallRequires at.now.line None))) }
    {
        let claim = Plain {
            kind: Kind::CallRequires,
            line: at.line,
            site: None,
        };
        for _number in 0..count {
            self.push(alloc, at, claim, "")?;
        }
        Ok(())
    }

    /// A property for each precondition of these callees.
    fn push_calls(
        &mut self,
        alloc: Global,
        at: &At<'_>,
        program: &Program,
        index: &Index,
        callees: &[u32],
    ) -> Result<(), AllocError>
        requires index { IsIndex program.now index.now }
        requires room { length self.old.rows + calls_count program.now callees.now ≤ 65536 }
        ensures { OnOk result (Adds self.old self.new (spot_of at.now) (call_requires program.now at.now.line callees.now)) }
    {
        for callee in callees {
            self.push_call(alloc, at, index.requires_of(program, *callee))?;
        }
        Ok(())
    }

    /// The properties of a point.
    #[tactic(auto, unfolding(crate::specs::inner::Counts::info_count, crate::specs::Rows::claims_at))]
    fn push_info(
        &mut self,
        alloc: Global,
        at: &At<'_>,
        program: &Program,
        index: &Index,
        info: &PointInfo,
    ) -> Result<(), AllocError>
        requires index { IsIndex program.now index.now }
        requires point { at.now.point.0 < length program.now.points }
        requires line { at.now.line ≡ info.now.line }
        requires room { length self.old.rows + info_count program.now at.now.point.0 info.now ≤ 65536 }
        ensures { OnOk result (AddsRows self.old self.new (rows_behind (spot_of at.now) [] (claims_at program.now at.now.point.0 info.now))) }
    {
        let claim = Plain {
            kind: Kind::Dead,
            line: at.line,
            site: None,
        };
        self.begin();
        self.push(alloc, at, claim, "")?;
        self.push_clauses(alloc, at, info.clauses.as_slice())?;
        self.push_sites(alloc, at, program, index.sites.at(at.point.0))?;
        self.push_calls(alloc, at, program, index, index.calls.at(at.point.0))
    }

    #[tactic(auto, unfolding(crate::specs::inner::Counts::point_count))]
    fn push_point(
        &mut self,
        alloc: Global,
        program: &Program,
        index: &Index,
        function: FnId,
        fun: &Fun,
        point: PointId,
    ) -> Result<(), AllocError>
        requires index { IsIndex program.now index.now }
        requires room { length self.old.rows + point_count program.now point.0 ≤ 65536 }
        ensures { OnOk result (AddsRows self.old self.new (point_rows program.now (record { number = function.0; function = fun.now; point = point.0 }))) }
    {
        match program.points.get(point.0 as usize) {
            None => Ok(()),
            Some(info) => {
                let at = At {
                    function,
                    fun,
                    point,
                    line: info.line,
                };
                self.push_info(alloc, &at, program, index, info)
            }
        }
    }

    /// The properties of a function.
    #[tactic(auto, unfolding(crate::specs::inner::Counts::fn_count))]
    fn push_fn(
        &mut self,
        alloc: Global,
        program: &Program,
        index: &Index,
        function: FnId,
        fun: &Fun,
    ) -> Result<(), AllocError>
        requires index { IsIndex program.now index.now }
        requires room { length self.old.rows + fn_count program.now fun.now ≤ 65536 }
        ensures { OnOk result (AddsRows self.old self.new (fn_rows program.now function.0 fun.now)) }
    {
        let end = u64::from(fun.exit.0) + 1;
        for point in u64::from(fun.entry.0)..end {
            self.push_point(alloc, program, index, function, fun, PointId(point as u32))?;
        }
        Ok(())
    }
}

/// The function with this number.
fn id_of(program: &Program, number: usize) -> FnId
    requires { number < length program.now.fns }
    ensures { result.0 ≡ number }
{
    program.keeps();
    let fns = program.fns.as_slice();
    let f = &fns[number];
    match program.points.get(f.entry.0 as usize) {
        Some(info) => info.owner,
        None => unreachable!(),
    }
}

/// All properties of a program that has at most 65,536 of them.
#[tactic(auto, unfolding(crate::specs::Rows::rows_of))]
pub(crate) fn rows_of(
    alloc: Global,
    program: &Program,
    index: &Index,
) -> Result<Items<Prop>, AllocError>
    requires index { IsIndex program.now index.now }
    requires room { fns_count program.now program.now.fns ≤ 65536 }
    ensures { IfOk result (λ rows. rows ≡ rows_of program.now) }
{
    let mut all = Rows::new(alloc);
    let fns = program.fns.as_slice();
    for number in 0..fns.len() {
        let function = id_of(program, number);
        all.push_fn(alloc, program, index, function, &fns[number])?;
    }
    let Rows { rows, counts: _ } = all;
    Ok(rows)
}

/// For each function whether it has a body.
pub(crate) fn defined_of(alloc: Global, program: &Program) -> Result<Items<bool>, AllocError>
    ensures { IfOk result (λ ds. ds ≡ defined_of program.now) }
{
    let mut defined = Items::new(alloc);
    for f in program.fns.as_slice() {
        defined.push(f.body.is_some())?;
    }
    Ok(defined)
}
