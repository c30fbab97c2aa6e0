//! The rule that makes a verdict.

ghost use Rattle.std.specs.Prelude.{◌≡◌};
ghost use Rattle.status_rules.specs.Verdicts.{verdict_by, open_verdict};

use fc_base::Verdict;

/// What a property's verdict is read from.
#[derive(Clone, Copy, Debug, PartialEq, Eq)]
pub struct VerdictInputs {
    /// It is taken as true.
    pub admitted: bool,
    /// It holds: it is admitted, or a counted True entry on it, or on the property of kind Dead at its point,
    /// has only hypotheses that are sure.
    pub held: bool,
    /// It has a counted entry of FalseAndReachable with only sure hypotheses; or it is firm and has such an
    /// entry of FalseIfReachable, and the property of kind Dead at its point has one of FalseAndReachable.
    pub refuted: bool,
    /// It isn't of kind Dead, and the property of kind Dead at its point holds, or it is both proven and
    /// disproven.
    pub unvisited: bool,
    /// It has a counted True entry with only sure hypotheses.
    pub proven: bool,
    /// It has a counted entry of FalseIfReachable with only sure hypotheses.
    pub disproven: bool,
    /// It has a counted entry.
    pub tried: bool,
    /// It has a counted True entry.
    pub said_true: bool,
    /// It has a counted entry of FalseIfReachable or FalseAndReachable.
    pub said_false: bool,
}

impl VerdictInputs {
    /// The verdict: the first case that fits.
    pub fn verdict(&self) -> Verdict
        ensures { result ≡ verdict_by self.now }
    {
        if self.refuted && self.held {
            Verdict::Inconsistent
        } else if self.admitted {
            Verdict::ConsideredValid
        } else if self.refuted {
            Verdict::Invalid
        } else if self.unvisited && self.proven {
            Verdict::ValidButDead
        } else if self.unvisited && self.disproven {
            Verdict::InvalidButDead
        } else if self.unvisited {
            Verdict::UnknownButDead
        } else if self.proven {
            Verdict::Valid
        } else {
            self.open_verdict()
        }
    }

    /// The verdict of a property that no sure entry settles.
    fn open_verdict(&self) -> Verdict
        ensures { result ≡ open_verdict self.now }
    {
        if !self.tried {
            Verdict::NeverTried
        } else if self.said_true && !self.said_false {
            Verdict::ValidUnderHyp
        } else if self.said_false && !self.said_true {
            Verdict::InvalidUnderHyp
        } else {
            Verdict::Unknown
        }
    }
}
