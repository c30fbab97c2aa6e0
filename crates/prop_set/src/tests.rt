//! Sets on small examples, and one of 10,000 members.

use crate::{PropSet, sets_are_lists, words};
use fc_base::PropId;
use std::alloc::{AllocError, Global};

/// The set of these numbers.
fn set(alloc: Global, numbers: &[u32]) -> Result<PropSet, AllocError> {
    let mut set = PropSet::new(alloc);
    for number in numbers {
        set.insert(PropId(*number))?;
    }
    Ok(set)
}

/// Whether the set has these members, in this order, and no other.
fn is(alloc: Global, set: &PropSet, numbers: &[u32]) -> Result<bool, AllocError> {
    let props = set.props(alloc)?;
    let props = props.as_slice();
    let mut same = props.len() == numbers.len() && set.len() == numbers.len();
    for (number, prop) in numbers.iter().zip(props) {
        same = same && *number == prop.0 && set.contains(*prop);
    }
    Ok(same)
}

#[test]
fn members_stand_in_order(rt: HostRuntime) -> Result<(), AllocError> {
    let alloc = rt.alloc();
    let rows: [(&[u32], &[u32]); 6] = [
        (&[], &[]),
        (&[0], &[0]),
        (&[65, 64, 63, 0], &[0, 63, 64, 65]),
        (&[7, 7, 7], &[7]),
        (&[191, 3, 128, 3], &[3, 128, 191]),
        (&[10_000, 1, 9_999], &[1, 9_999, 10_000]),
    ];
    for (put, wanted) in rows {
        let set = set(alloc, put)?;
        assert!(rt; is(alloc, &set, wanted)?);
        assert!(rt;
            !set.contains(PropId(2)) && !set.contains(PropId(66)) && !set.contains(PropId(u32::MAX))
        );
    }
    Ok(())
}

#[test]
fn sets_are_joined_and_compared(rt: HostRuntime) -> Result<(), AllocError> {
    let alloc = rt.alloc();
    let rows: [(&[u32], &[u32], &[u32]); 5] = [
        (&[], &[], &[]),
        (&[0, 63], &[], &[0, 63]),
        (&[], &[1, 64], &[1, 64]),
        (&[1, 65], &[1, 300], &[1, 65, 300]),
        (&[300, 2], &[63, 64], &[2, 63, 64, 300]),
    ];
    for (left, right, wanted) in rows {
        let other = set(alloc, right)?;
        let start = set(alloc, left)?;
        let mut both = start.copy(alloc)?;
        assert!(rt; both.same(&start) && start.same(&both));
        both.join(&other)?;
        assert!(rt; is(alloc, &both, wanted)?);
        assert!(rt; start.is_within(&both) && other.is_within(&both));
        assert!(rt; both.is_within(&start) == both.same(&start));
        assert!(rt; both.is_within(&other) == other.same(&both));
    }
    Ok(())
}

#[test]
fn ten_thousand_members(rt: HostRuntime) -> Result<(), AllocError> {
    let alloc = rt.alloc();
    let mut even = PropSet::new(alloc);
    let mut all = PropSet::new(alloc);
    for number in 0..10_000 {
        all.insert(PropId(number))?;
        if number % 2 == 0 {
            even.insert(PropId(number))?;
        }
    }
    assert!(rt; all.len() == 10_000 && even.len() == 5_000);
    assert!(rt; even.is_within(&all) && !all.is_within(&even) && !all.same(&even));
    let props = even.props(alloc)?;
    assert!(rt; props.len() == 5_000 && props.as_slice().last() == Some(&PropId(9_998)));
    even.join(&all)?;
    assert!(rt; even.same(&all) && all.same(&even));
    sets_are_lists();
    all.rises();
    Ok(())
}

#[test]
fn words_of_zero_at_the_end(rt: HostRuntime) {
    assert!(rt; words::are_same(&[6], &[6, 0, 0]) && words::are_same(&[0, 0], &[]));
    assert!(rt; !words::are_same(&[6], &[6, 0, 1]) && !words::are_same(&[0, 2], &[]));
    assert!(rt; words::are_within(&[4, 0], &[6]) && !words::are_within(&[4, 1], &[6]));
    assert!(rt; words::count(&[7, 0]) == 3 && !words::has(&[7, 0], 64));
}
