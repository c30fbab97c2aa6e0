//! Laws of supports.

ghost use Rattle.support_cert.specs.Laws.{HeldHaveSupports, SupportedHold};

/// Each property that holds has a support.
pub fn held_have_supports()
    ensures { HeldHaveSupports }
{}

/// Each property that has a support holds.
pub fn supported_hold()
    ensures { SupportedHold }
{}
