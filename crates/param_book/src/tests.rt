//! The table's rows, by hand from its documented form.

use crate::{NO_PARAM, agree, fits, is_external, number, opening, own_named, own_sets, run_params};
use fc_base::{EmitterId, ParamSet};

#[test]
fn names_have_numbers(rt: HostRuntime) {
    let cases = [
        ("main", 0),
        ("lib_entry", 1),
        ("signed_overflow", 2),
        ("eva_assume", 3),
        ("eva_unroll", 4),
        ("x0", 8),
        ("x7", 15),
        ("x8", 7),
        ("", 7),
        ("Main", 7),
    ];
    for (name, want) in cases {
        assert!(rt; number(name) == want, "{name}");
    }
    assert!(rt; NO_PARAM == 7 && run_params() == [0, 1, 2]);
}

#[test]
fn values_fit_their_ranges(rt: HostRuntime) {
    let cases = [
        (0, 0, true),
        (0, 1, false),
        (0, 2, true),
        (0, 3, false),
        (0, -1, false),
        (1, 1, true),
        (1, 2, false),
        (2, -1, false),
        (3, 0, true),
        (4, 64, true),
        (4, 65, false),
        (5, 0, false),
        (7, 0, false),
        (8, 1_000_000_000, true),
        (15, 1_000_000_001, false),
        (16, 0, false),
        (255, 0, false),
    ];
    for (number, value, want) in cases {
        assert!(rt;
            fits(&[true, false, true], number, value) == want,
            "{number} {value}"
        );
    }
}

#[test]
fn emitters_rest_on_their_parameters(rt: HostRuntime) {
    let names = ["kernel", "rte", "eva", "replay", "wp"];
    for (place, name) in names.iter().enumerate() {
        let want = if place < 4 {
            Some(EmitterId(place as u32))
        } else {
            None
        };
        assert!(rt; own_named(name) == want, "{name}");
    }
    assert!(rt; !is_external(EmitterId(3)) && is_external(EmitterId(4)));
    // For each parameter: whether `kernel`, `eva` and an emitter with x0 go on counting after it changed.
    let cases = [
        (0, false, false, false),
        (1, false, false, false),
        (2, false, false, false),
        (3, true, false, true),
        (4, true, false, true),
        (8, true, true, false),
        (9, true, true, true),
        (15, true, true, true),
    ];
    let before = opening(3, true);
    let sets = own_sets();
    for (number, kernel, eva, other) in cases {
        let mut after = before;
        after.set(number, 77);
        assert!(rt;
            agree(sets[0], &before, &after) == kernel,
            "kernel {number}"
        );
        assert!(rt; agree(sets[2], &before, &after) == eva, "eva {number}");
        assert!(rt;
            agree(ParamSet(256), &before, &after) == other,
            "x0 {number}"
        );
    }
}
