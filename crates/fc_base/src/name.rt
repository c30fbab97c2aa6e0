//! Names of bounded length.

ghost use Rattle.std.specs.Prelude.{◌≡◌, ◌≤◌, IfOk, length};

use std::alloc::{AllocError, Global};
use std::marker::Model;

/// A text of at most `MOST` bytes, which contracts see as the list of its bytes.
#[derive(Debug, Drop)]
pub struct Bounded<const MOST: usize> {
    text: String,
}

/// A name or a label of a program, or an emitter's name: at most 256 bytes. As a label the empty name
/// says that there is none.
pub type Name = Bounded<256>;

/// The name of a property, as `main@2/assert/0`: at most 512 bytes.
pub type PropName = Bounded<512>;

impl<const MOST: usize> Model for Bounded<MOST> {
    ghost use Rattle.std.specs.Prelude.{List, ℕ, ◌≤◌, length, string_bytes};

    ghost Value = { List ℕ };

    ghost view = { λ n. string_bytes n.text };

    ghost invariant = { λ n. length (string_bytes n.text) ≤ MOST };
}

impl<const MOST: usize> Bounded<MOST> {
    /// A name with this text.
    pub fn new(alloc: Global, text: &str) -> Result<Bounded<MOST>, AllocError>
        requires { length text.now ≤ MOST }
        ensures { IfOk result (λ n. n ≡ text.now) }
    {
        let text = String::from_str(alloc, text)?;
        Ok(Bounded { text })
    }

    /// The same name again.
    pub fn copy(&self, alloc: Global) -> Result<Bounded<MOST>, AllocError>
        ensures { IfOk result (λ n. n ≡ self.now) }
    {
        Bounded::new(alloc, self.as_str())
    }

    /// The text of the name.
    pub fn as_str(&self) -> &str
        ensures value { result.now ≡ self.now }
        ensures bound { length self.now ≤ MOST }
    {
        self.text.as_str()
    }
}

#[cfg(test)]
mod tests {
    use super::*;
    use crate::{LocalStatus, ParamValues, Verdict};
    use std::test::Fail;

    #[test]
    fn names_are_made_and_copied(rt: HostRuntime) -> Result<(), Fail> {
        let name = Name::new(rt.alloc(), "x_1")?;
        let again = name.copy(rt.alloc())?;
        assert!(rt; name.as_str() == "x_1");
        assert!(rt; again.as_str() == "x_1");
        Ok(())
    }

    #[test]
    fn words_of_statuses_and_verdicts(rt: HostRuntime) {
        assert!(rt; LocalStatus::DontKnow.text() == "Dont_know");
        assert!(rt; Verdict::all()[3].text() == "Valid_under_hyp");
        assert!(rt; Verdict::all()[10].text() == "Inconsistent");
    }

    #[test]
    fn parameters_are_read_and_set(rt: HostRuntime) {
        let mut values = ParamValues { values: [4; 16] };
        values.set(0, 3);
        values.set(15, 1_000_000_000);
        assert!(rt; values.get(0) == 3 && values.get(1) == 4 && values.get(15) == 1_000_000_000);
    }
}
