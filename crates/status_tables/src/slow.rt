//! The verdict of one property, by scans of the whole history.

use c_ir::{Kind, PropTable};
use fc_base::{EmitterId, LocalStatus, PropId, Verdict};
use status_history::{Change, Entry, History};

/// The value of a parameter after so many settings.
fn value(history: &History, number: usize, version: u32) -> i64 {
    let mut left = version;
    let mut found = match history.opening.values.get(number) {
        Some(value) => *value,
        None => 0,
    };
    for change in history.changes.as_slice() {
        if let Change::Param {
            number: changed,
            value,
        } = change
        {
            if left == 0 {
                return found;
            }
            left -= 1;
            if usize::from(*changed) == number {
                found = *value;
            }
        }
    }
    found
}

/// Whether an emitter's entries rest on a parameter.
fn rests_on(history: &History, emitter: EmitterId, number: u32) -> bool {
    if number < 3 {
        return true;
    }
    match emitter.0 {
        0 | 1 | 3 => false,
        2 => number < 5,
        later => {
            let mut before = 4;
            for change in history.changes.as_slice() {
                if let Change::Register { correctness, .. } = change {
                    if before == later {
                        return correctness.0.checked_shr(number).unwrap_or(0) % 2 == 1;
                    }
                    before = u32::saturating_add(before, 1);
                }
            }
            false
        }
    }
}

/// Whether an entry is current.
fn is_current(history: &History, entry: &Entry) -> bool {
    for number in 0..16u16 {
        let place = usize::from(number);
        let differs = value(history, place, entry.version) != value(history, place, u32::MAX);
        if differs && rests_on(history, entry.emitter, u32::from(number)) {
            return false;
        }
    }
    true
}

/// Whether the entry of the change at a place is current, and no later change brings a current one of its
/// emitter on its property.
fn counts(history: &History, entry: &Entry, place: usize) -> bool {
    for (other_place, change) in history.changes.as_slice().iter().enumerate() {
        if let Change::Emit(other) = change
            && other_place > place
            && other.emitter.0 == entry.emitter.0
            && other.prop.0 == entry.prop.0
            && is_current(history, other)
        {
            return false;
        }
    }
    is_current(history, entry)
}

/// What hypotheses have to be.
#[derive(Clone, Copy)]
enum Asked {
    /// There may be none.
    Absent,
    /// Sure.
    Sure,
    /// Anything.
    Free,
}

/// Whether a property has a counted entry with this status and such hypotheses, where these are sure.
fn has(history: &History, prop: PropId, status: LocalStatus, asked: Asked, sure: &[bool]) -> bool {
    for (place, change) in history.changes.as_slice().iter().enumerate() {
        if let Change::Emit(entry) = change
            && entry.prop == prop
            && entry.status == status
            && meets(entry.hyps.as_slice(), asked, sure)
            && counts(history, entry, place)
        {
            return true;
        }
    }
    false
}

/// Whether hypotheses are as asked.
fn meets(hyps: &[PropId], asked: Asked, sure: &[bool]) -> bool {
    match asked {
        Asked::Absent => hyps.is_empty(),
        Asked::Free => true,
        Asked::Sure => hyps
            .iter()
            .all(|hyp| matches!(sure.get(hyp.0 as usize), Some(true))),
    }
}

/// Whether a property is admitted.
fn is_admitted(history: &History, props: &PropTable, place: u32) -> bool {
    let Some(row) = props.rows().get(place as usize) else {
        return false;
    };
    let function = row.function.0;
    match row.kind {
        Kind::Admit => true,
        Kind::Ensures => !matches!(props.defined().get(function as usize), Some(true)),
        Kind::Requires => value(history, 0, u32::MAX) == i64::from(function),
        _ => false,
    }
}

/// The property of kind Dead that a property is behind.
fn dead(props: &PropTable, place: u32) -> Option<PropId> {
    let row = props.rows().get(place as usize)?;
    if matches!(row.kind, Kind::Dead) {
        return None;
    }
    for other in props.rows() {
        if matches!(other.kind, Kind::Dead) && other.point == row.point {
            return Some(other.id);
        }
    }
    None
}

/// What verdicts are read from.
#[derive(Drop)]
struct Slow<'a> {
    history: &'a History,
    props: &'a PropTable,
    sure: [bool; 16],
}

impl Slow<'_> {
    /// Whether a property has a counted entry with this status and such hypotheses.
    fn has(&self, prop: PropId, status: LocalStatus, asked: Asked) -> bool {
        has(self.history, prop, status, asked, &self.sure)
    }

    /// The same of the property of kind Dead that a property is behind.
    fn dead_has(&self, place: u32, status: LocalStatus, asked: Asked) -> bool {
        match dead(self.props, place) {
            Some(dead) => self.has(dead, status, asked),
            None => false,
        }
    }

    /// Whether a property is sure.
    fn is_sure(&self, place: u32) -> bool {
        is_admitted(self.history, self.props, place)
            || self.has(PropId(place), LocalStatus::True, Asked::Absent)
            || self.dead_has(place, LocalStatus::True, Asked::Absent)
    }

    /// Whether a property holds.
    fn holds(&self, place: u32) -> bool {
        self.is_sure(place)
            || self.has(PropId(place), LocalStatus::True, Asked::Sure)
            || self.dead_has(place, LocalStatus::True, Asked::Sure)
    }

    /// Whether no run visits a property.
    fn is_unvisited(&self, place: u32, torn: bool) -> bool {
        match dead(self.props, place) {
            Some(dead) => self.holds(dead.0) || torn,
            None => torn && !self.is_dead(place),
        }
    }

    /// Whether a property is of kind Dead.
    fn is_dead(&self, place: u32) -> bool {
        match self.props.rows().get(place as usize) {
            Some(row) => matches!(row.kind, Kind::Dead),
            None => false,
        }
    }

    /// Whether a property is refuted.
    fn is_refuted(&self, place: u32, broken: bool) -> bool {
        let firm = match self.props.rows().get(place as usize) {
            Some(row) => row.firm,
            None => false,
        };
        self.has(PropId(place), LocalStatus::FalseAndReachable, Asked::Sure)
            || (firm && broken && self.dead_has(place, LocalStatus::FalseAndReachable, Asked::Sure))
    }

    /// The verdict of a property.
    fn verdict(&self, place: u32) -> Verdict {
        let prop = PropId(place);
        let whole = self.has(prop, LocalStatus::True, Asked::Sure);
        let broken = self.has(prop, LocalStatus::FalseIfReachable, Asked::Sure);
        let admitted = is_admitted(self.history, self.props, place);
        let unvisited = self.is_unvisited(place, whole && broken);
        match (self.holds(place), self.is_refuted(place, broken)) {
            (true, true) => Verdict::Inconsistent,
            (_, refuted) => match (admitted, refuted, unvisited, whole, broken) {
                (true, _, _, _, _) => Verdict::ConsideredValid,
                (_, true, _, _, _) => Verdict::Invalid,
                (_, _, true, true, _) => Verdict::ValidButDead,
                (_, _, true, _, true) => Verdict::InvalidButDead,
                (_, _, true, _, _) => Verdict::UnknownButDead,
                (_, _, _, true, _) => Verdict::Valid,
                (_, _, _, _, _) => self.open(prop),
            },
        }
    }

    /// The verdict of a property that no entry settles.
    fn open(&self, prop: PropId) -> Verdict {
        let said = |status| self.has(prop, status, Asked::Free);
        let wrong = said(LocalStatus::FalseIfReachable) || said(LocalStatus::FalseAndReachable);
        match (said(LocalStatus::True), wrong, said(LocalStatus::DontKnow)) {
            (false, false, false) => Verdict::NeverTried,
            (true, false, _) => Verdict::ValidUnderHyp,
            (false, true, _) => Verdict::InvalidUnderHyp,
            (_, _, _) => Verdict::Unknown,
        }
    }
}

/// The verdict of a property.
pub(crate) fn verdict(history: &History, props: &PropTable, place: u32) -> Verdict {
    let mut slow = Slow {
        history,
        props,
        sure: [false; 16],
    };
    let mut sure = [false; 16];
    for other in 0..16u16 {
        let inside = usize::from(other) < props.rows().len();
        sure[usize::from(other)] = inside && slow.is_sure(u32::from(other));
    }
    slow.sure = sure;
    slow.verdict(place)
}
