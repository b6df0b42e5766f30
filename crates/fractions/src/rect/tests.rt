use super::*;

const UNIT: Rect = Rect {
    l: 0,
    t: 0,
    r: 1,
    b: 1,
};

fn make_rect(l: i64, t: i64, r: i64, b: i64) -> Rect {
    Rect { l, t, r, b }
}

#[test]
fn holds_its_left_and_top_edges_alone(rt: HostRuntime) {
    let cases = [
        (-2, -3, true),
        (4, -3, true),
        (5, -3, false),
        (-3, -3, false),
        (-2, 6, true),
        (-2, 7, false),
        (-2, -4, false),
        (4, 6, true),
        (5, 7, false),
        (0, 0, true),
        (i128::MAX, 0, false),
        (0, i128::MIN, false),
    ];
    let rect = make_rect(-2, -3, 5, 7);
    for (x, y, want) in cases {
        assert_eq!(rt; rect.holds(x, y), want, "at {x} {y}");
    }
    let all = make_rect(i64::MIN, i64::MIN, i64::MAX, i64::MAX);
    assert!(rt; all.holds(i128::from(i64::MIN), i128::from(i64::MAX) - 1));
    assert!(rt; !all.holds(i128::from(i64::MAX), 0));
    assert!(rt; !all.holds(0, i128::from(i64::MIN) - 1));
}

#[test]
fn is_empty_where_edges_meet_or_cross(rt: HostRuntime) {
    let cases = [
        (UNIT, false),
        (make_rect(0, 0, 0, 1), true),
        (make_rect(0, 0, 1, 0), true),
        (make_rect(0, 0, 0, 0), true),
        (make_rect(3, 0, 2, 9), true),
        (make_rect(0, 9, 3, 2), true),
        (make_rect(3, 9, 2, 2), true),
        (make_rect(-5, -5, -4, -4), false),
        (make_rect(i64::MIN, i64::MIN, i64::MAX, i64::MAX), false),
    ];
    for (rect, want) in cases {
        assert_eq!(rt; rect.is_empty(), want, "{rect:?}");
    }
}

#[test]
fn meets_in_the_shared_part(rt: HostRuntime) {
    let cases = [
        (
            make_rect(0, 0, 10, 10),
            make_rect(5, -5, 15, 5),
            make_rect(5, 0, 10, 5),
        ),
        (
            make_rect(-9, -9, -1, -1),
            make_rect(-5, -7, -3, 4),
            make_rect(-5, -7, -3, -1),
        ),
        (
            make_rect(0, 0, 2, 2),
            make_rect(2, 0, 4, 2),
            make_rect(2, 0, 2, 2),
        ),
        (
            make_rect(0, 0, 2, 2),
            make_rect(7, 8, 9, 9),
            make_rect(7, 8, 2, 2),
        ),
        (
            make_rect(i64::MIN, 0, i64::MAX, 1),
            make_rect(0, i64::MIN, 1, i64::MAX),
            UNIT,
        ),
    ];
    for (a, b, want) in cases {
        assert_eq!(rt; a.meet(&b), want);
        assert_eq!(rt; b.meet(&a), want);
    }
}
