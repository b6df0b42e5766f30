use super::*;
use crate::{identity, quarter, scale, translate};
use std::process::Abort;

const fn parts(a: i128, b: i128, c: i128, d: i128, e: i128, f: i128, q: i128) -> Parts {
    Parts {
        a,
        b,
        c,
        d,
        e,
        f,
        q,
    }
}

fn stretch(by: i128, q: i128) -> Parts {
    parts(by, 0, 0, by, 0, 0, q)
}

fn move_by(e: i128, f: i128, q: i128) -> Parts {
    parts(q, 0, 0, q, e, f, q)
}

// The map of parts that are narrow enough to be brought to lowest terms.
fn made(rt: &impl Abort, p: &Parts) -> Option<Map> {
    assert!(rt; p.q > 0);
    assert!(rt; matrix_size(p) <= 1 << 120);
    assert!(rt; p.e.unsigned_abs() <= 1 << 120);
    assert!(rt; p.f.unsigned_abs() <= 1 << 120);
    from_parts(p)
}

#[test]
fn brings_parts_to_lowest_terms(rt: HostRuntime) {
    let cases = [
        (parts(2, 4, 6, 8, 10, 12, 2), parts(1, 2, 3, 4, 5, 6, 1)),
        (parts(0, 0, 0, 0, 0, 0, 7), parts(0, 0, 0, 0, 0, 0, 1)),
        (parts(-3, 0, 0, -3, 9, -6, 3), parts(-1, 0, 0, -1, 3, -2, 1)),
        (parts(3, 4, -4, 3, 0, 0, 5), parts(3, 4, -4, 3, 0, 0, 5)),
        (parts(6, 0, 0, 10, 15, 0, 30), parts(6, 0, 0, 10, 15, 0, 30)),
        (stretch(1 << 45, 2), stretch(1 << 44, 1)),
        (stretch(1 << 120, 1 << 120), stretch(1, 1)),
    ];
    for (given, want) in cases {
        assert_eq!(rt; made(&rt, &given).map(|m| m.parts()), Some(want));
    }
}

#[test]
fn keeps_the_bound_on_each_part(rt: HostRuntime) {
    let cases = [
        (stretch(1 << 44, 1), true),
        (stretch((1 << 44) + 1, 1), false),
        (stretch(-(1 << 44), 1), true),
        (stretch(-(1 << 44) - 1, 1), false),
        (stretch(1, 1 << 44), true),
        (stretch(1, (1 << 44) + 1), false),
        (parts(0, 1 << 44, 0, 0, 0, 0, 1), true),
        (parts(0, (1 << 44) + 1, 0, 0, 0, 0, 1), false),
        (parts(0, 0, -(1 << 44), 0, 0, 0, 1), true),
        (parts(0, 0, -(1 << 44) - 1, 0, 0, 0, 1), false),
        (parts(0, 0, 0, (1 << 44) + 1, 0, 0, 1), false),
        (move_by(1 << 70, 0, 1), true),
        (move_by((1 << 70) + 1, 0, 1), false),
        (move_by(0, -(1 << 70), 1), true),
        (move_by(0, -(1 << 70) - 1, 1), false),
        (move_by(1 << 71, 0, 2), true),
    ];
    for (given, want) in cases {
        assert_eq!(rt; made(&rt, &given).is_some(), want, "{given:?}");
    }
}

#[test]
fn does_the_right_map_first(rt: HostRuntime) {
    let turn = made(&rt, &parts(3, 4, -4, 3, 0, 0, 5)).expect(&rt, "a turn");
    let back = made(&rt, &parts(3, -4, 4, 3, 0, 0, 5)).expect(&rt, "a turn back");
    let moved = translate(10, 20, 1);
    let doubled = scale(2, 3, 1);
    let halved = scale(1, 1, 2);
    let mirror = scale(-1, 1, 1);
    let cases = [
        (moved, doubled, parts(2, 0, 0, 3, 10, 20, 1)),
        (doubled, moved, parts(2, 0, 0, 3, 20, 60, 1)),
        (moved, quarter(1), parts(0, 1, -1, 0, 10, 20, 1)),
        (quarter(1), moved, parts(0, 1, -1, 0, -20, 10, 1)),
        (quarter(1), doubled, parts(0, 2, -3, 0, 0, 0, 1)),
        (doubled, quarter(1), parts(0, 3, -2, 0, 0, 0, 1)),
        (quarter(1), quarter(1), parts(-1, 0, 0, -1, 0, 0, 1)),
        (quarter(1), quarter(2), parts(0, -1, 1, 0, 0, 0, 1)),
        (quarter(3), quarter(1), parts(1, 0, 0, 1, 0, 0, 1)),
        (mirror, mirror, parts(1, 0, 0, 1, 0, 0, 1)),
        (mirror, quarter(1), parts(0, 1, 1, 0, 0, 0, 1)),
        (halved, scale(2, 2, 1), parts(1, 0, 0, 1, 0, 0, 1)),
        (halved, translate(1, 3, 1), parts(1, 0, 0, 1, 1, 3, 2)),
        (translate(1, 3, 1), halved, parts(1, 0, 0, 1, 2, 6, 2)),
        (translate(1, 3, 2), moved, parts(2, 0, 0, 2, 21, 43, 2)),
        (turn, back, parts(1, 0, 0, 1, 0, 0, 1)),
        (turn, turn, parts(-7, 24, -24, -7, 0, 0, 25)),
        (turn, moved, parts(3, 4, -4, 3, -50, 100, 5)),
        (identity(), turn, parts(3, 4, -4, 3, 0, 0, 5)),
        (scale(0, 1, 1), turn, parts(0, 4, 0, 3, 0, 0, 5)),
    ];
    for (left, right, want) in cases {
        assert_eq!(rt;
            compose(&left, &right).map(|m| m.parts()),
            Some(want),
            "{left:?} {right:?}"
        );
    }
}

#[test]
fn answers_none_past_the_bound(rt: HostRuntime) {
    let wide = scale(1 << 22, 1 << 22, 1);
    let fine = scale(1, 1, 1 << 22);
    let shrunk = scale(9_999, 9_999, 10_000);
    let twice = compose(&shrunk, &shrunk).expect(&rt, "a second");
    let thrice = compose(&twice, &shrunk).expect(&rt, "a third");
    let cases = [
        (wide, wide, true),
        (wide, scale((1 << 22) + 1, 1, 1), false),
        (fine, fine, true),
        (fine, scale(1, 1, 1 << 23), false),
        (fine, wide, true),
        (thrice, shrunk, false),
        (thrice, scale(10_000, 10_000, 9_999), true),
    ];
    for (left, right, want) in cases {
        assert_eq!(rt;
            compose(&left, &right).is_some(),
            want,
            "{left:?} {right:?}"
        );
    }
}
