//! What an emitter says of a property.

ghost use Rattle.std.specs.Prelude.{◌≡◌};
ghost use Rattle.fc_base.specs.Texts.{status_text};

/// What an emitter says of a property, where the hypotheses that it names hold (after Correnson and
/// Signoles, FMICS 2012, with names of this project's own).
#[derive(Clone, Copy, Debug, PartialEq, Eq)]
pub enum LocalStatus {
    /// No run breaks the property.
    True,
    /// The emitter tried and doesn't know.
    DontKnow,
    /// Each visit of the property breaks it; whether there is one isn't said.
    FalseIfReachable,
    /// Some run visits the property and breaks it.
    FalseAndReachable,
}

impl LocalStatus {
    /// The word that stands for the status in scripts and messages.
    pub fn text(self) -> &'static str
        ensures { result.now ≡ status_text self }
    {
        match self {
            LocalStatus::True => "True",
            LocalStatus::DontKnow => "Dont_know",
            LocalStatus::FalseIfReachable => "False_if_reachable",
            LocalStatus::FalseAndReachable => "False_and_reachable",
        }
    }
}
