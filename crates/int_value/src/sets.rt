//! Values as sets.

ghost use Rattle.std.specs.Prelude.{◌≡◌, ◌&&◌};
ghost use Rattle.int_value.specs.Rows.{congr_within, included_row, join_row, joined_congr, meet_row, unset_within};

use crate::value::{Value, answer, reduced_parts};
use int_congr::Congr;
use int_interval::Interval;

impl Value {
    /// The least value with the numbers of both. An empty value gives the other's numbers; the result may be unset
    /// if one of both may.
    #[tactic(auto, unfolding(crate::specs::Rows::join_row))]
    pub fn join(&self, other: &Value) -> Value
        ensures { result ≡ join_row self.now other.now }
    {
        answer(
            self.range.join(&other.range),
            self.joined_congr(other),
            self.unset || other.unset,
        )
    }

    /// The numbers that are in the interval too. The flag stays.
    #[tactic(auto, unfolding(crate::specs::Rows::meet_row))]
    pub fn meet(&self, range: &Interval) -> Value
        ensures { result ≡ meet_row self.now range.now }
    {
        reduced_parts(self.range.meet(range), self.congr, self.unset)
    }

    /// Whether the interval lies within the other's, each number of the congruence is in the other's, unless the
    /// value is empty, and the value is unset only if the other is.
    #[tactic(auto, unfolding(crate::specs::Rows::included_row))]
    pub fn included(&self, other: &Value) -> bool
        ensures { result ≡ included_row self.now other.now }
    {
        self.range.included(&other.range) && self.rest_included(other)
    }

    fn rest_included(&self, other: &Value) -> bool
        ensures { result ≡
            (congr_within self.now other.now && unset_within self.now.unset other.now.unset) }
    {
        self.congr_included(other) && (!self.unset || other.unset)
    }

    fn congr_included(&self, other: &Value) -> bool
        ensures { result ≡ congr_within self.now other.now }
    {
        self.range.is_empty() || self.congr.included(&other.congr)
    }

    /// The congruence of a join.
    pub(crate) fn joined_congr(&self, other: &Value) -> Congr
        ensures { result ≡ joined_congr self.now other.now }
    {
        if self.range.is_empty() {
            other.congr
        } else if other.range.is_empty() {
            self.congr
        } else {
            self.congr.join(&other.congr)
        }
    }
}
