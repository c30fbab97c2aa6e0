//! What all statements on a property come to.

ghost use Rattle.std.specs.Prelude.{◌≡◌};
ghost use Rattle.fc_base.specs.Texts.{verdict_text, all_verdicts};

/// What the counted entries of all emitters come to for one property. The rule is in the crate
/// `status_rules`; the names are after Frama-C's, the rule is this project's own.
#[derive(Clone, Copy, Debug, PartialEq, Eq)]
pub enum Verdict {
    /// No entry counts.
    NeverTried,
    /// The property is admitted.
    ConsideredValid,
    /// No run breaks it.
    Valid,
    /// Claimed true, under hypotheses that aren't all sure.
    ValidUnderHyp,
    /// Nothing follows.
    Unknown,
    /// Some run breaks it.
    Invalid,
    /// Claimed false, where it doesn't follow that some run breaks it.
    InvalidUnderHyp,
    /// Each visit would break it, and no run visits it.
    InvalidButDead,
    /// No visit would break it, and no run visits it.
    ValidButDead,
    /// No run visits it.
    UnknownButDead,
    /// The entries contradict one another.
    Inconsistent,
}

impl Verdict {
    /// All verdicts, in the order of a report's summary.
    pub fn all() -> [Verdict; 11]
        ensures { result ≡ all_verdicts }
    {
        [
            Verdict::NeverTried,
            Verdict::ConsideredValid,
            Verdict::Valid,
            Verdict::ValidUnderHyp,
            Verdict::Unknown,
            Verdict::Invalid,
            Verdict::InvalidUnderHyp,
            Verdict::InvalidButDead,
            Verdict::ValidButDead,
            Verdict::UnknownButDead,
            Verdict::Inconsistent,
        ]
    }

    /// The word that stands for the verdict in reports and messages.
    pub fn text(self) -> &'static str
        ensures { result.now ≡ verdict_text self }
    {
        match self {
            Verdict::NeverTried => "Never_tried",
            Verdict::ConsideredValid => "Considered_valid",
            Verdict::Valid => "Valid",
            Verdict::ValidUnderHyp => "Valid_under_hyp",
            Verdict::Unknown => "Unknown",
            Verdict::Invalid => "Invalid",
            Verdict::InvalidUnderHyp => "Invalid_under_hyp",
            Verdict::InvalidButDead => "Invalid_but_dead",
            Verdict::ValidButDead => "Valid_but_dead",
            Verdict::UnknownButDead => "Unknown_but_dead",
            Verdict::Inconsistent => "Inconsistent",
        }
    }
}
