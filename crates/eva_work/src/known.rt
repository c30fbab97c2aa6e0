//! The counts of functions that are known: the place of a function has 0, or 1 and its count.

ghost use Rattle.std.specs.Prelude.{◌≡◌, ◌+◌, ◌<◌, ◌^◌, get_or, set};
ghost use Rattle.eva_work.specs.inner.Counting.{noted_at};

/// The count of a function, if it is known.
pub(crate) fn noted(known: &[u64], number: usize) -> Option<u64>
    ensures { result ≡ noted_at (get_or known.now number 0) }
{
    match known.get(number) {
        Some(place) => place.checked_sub(1),
        None => None,
    }
}

/// Keeps the count of a function, if it has a place.
pub(crate) fn note(known: &mut [u64], number: usize, count: u64)
    requires { count < 2 ^ 63 }
    ensures { known.new ≡ set known.old number (count + 1) }
{
    if number < known.len() {
        known[number] = count + 1;
    }
}
