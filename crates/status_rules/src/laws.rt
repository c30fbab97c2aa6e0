//! Laws of verdicts: that they are true, when they changed last, and which entries are right.

ghost use Rattle.status_rules.specs.Changed.{ChangedIsLast};
ghost use Rattle.status_rules.specs.Truth.{VerdictsAreTrue, CountedAreRight, BothSortsAreAll};

/// Over any runs that keep the laws of runs, and any history whose counted entries are locally right, no
/// row is Inconsistent, and each verdict is true of the runs.
pub fn verdicts_are_true()
    ensures { VerdictsAreTrue }
{}

/// Where all entries of a history are locally right, so are those that count.
pub fn counted_are_right()
    ensures { CountedAreRight }
{}

/// Entries are locally right where those of registered emitters are and those of the program's own.
pub fn both_sorts_are_all()
    ensures { BothSortsAreAll }
{}

/// The place of a property's last change is the last one at which its verdict differs from the one before.
pub fn changed_is_last()
    ensures { ChangedIsLast }
{}
