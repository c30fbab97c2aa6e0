//! Sums and products of counts. A count over 2^62 stands as 2^62.

ghost use Rattle.std.specs.Prelude.{◌≡◌, ◌+◌};
ghost use Rattle.eva_work.specs.Work.{loop_work};
ghost use Rattle.eva_work.specs.inner.Counting.{capped};

/// The greatest count.
const MOST: u64 = 1 << 62;

/// The sum of two counts.
pub(crate) fn sum(a: u64, b: u64) -> u64
    ensures { result ≡ capped (a + b) }
{
    a.saturating_add(b).min(MOST)
}

/// A loop whose body has this count, with so many turns one by one.
pub(crate) fn looped(unroll: u64, body: u64) -> u64
    ensures { result ≡ capped (loop_work unroll body) }
{
    let turns = u128::from(unroll) + 15;
    let turn = u128::from(body) + 1;
    let all = turns.saturating_mul(turn).saturating_add(1);
    all.min(u128::from(MOST)) as u64
}
