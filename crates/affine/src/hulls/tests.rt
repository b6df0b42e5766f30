use super::*;
use crate::{Parts, from_parts, identity, quarter, scale, translate};
use std::process::Abort;

const ALL: Rect = Rect {
    l: -(1 << 21),
    t: -(1 << 21),
    r: 1 << 21,
    b: 1 << 21,
};

fn make_rect(l: i64, t: i64, r: i64, b: i64) -> Rect {
    Rect { l, t, r, b }
}

fn hull_in(rt: &impl Abort, m: &Map, r: &Rect, region: &Rect) -> Rect {
    assert!(rt; r.l <= r.r);
    assert!(rt; r.t <= r.b);
    hull(m, r, region)
}

#[test]
fn holds_the_images_of_the_closed_rectangle(rt: HostRuntime) {
    let turn = from_parts(&Parts {
        a: 3,
        b: 4,
        c: -4,
        d: 3,
        e: 0,
        f: 0,
        q: 5,
    })
    .expect(&rt, "a turn");
    let unit = make_rect(0, 0, 1, 1);
    let ten = make_rect(0, 0, 10, 10);
    let odd = make_rect(1, 2, 3, 4);
    let cases = [
        (identity(), ten, ALL, make_rect(0, 0, 11, 11)),
        (
            identity(),
            make_rect(4, 4, 4, 4),
            ALL,
            make_rect(4, 4, 5, 5),
        ),
        (translate(5, -5, 1), ten, ALL, make_rect(5, -5, 16, 6)),
        (translate(1, -1, 2), ten, ALL, make_rect(0, -1, 11, 10)),
        (
            scale(1, 1, 2),
            make_rect(1, 1, 4, 4),
            ALL,
            make_rect(0, 0, 3, 3),
        ),
        (scale(-1, 1, 1), odd, ALL, make_rect(-3, 2, 0, 5)),
        (scale(-1, -1, 2), odd, ALL, make_rect(-2, -2, 0, 0)),
        (scale(0, 1, 1), odd, ALL, make_rect(0, 2, 1, 5)),
        (
            quarter(1),
            make_rect(0, 0, 10, 20),
            ALL,
            make_rect(-20, 0, 1, 11),
        ),
        (quarter(2), odd, ALL, make_rect(-3, -4, 0, -1)),
        (turn, make_rect(0, 0, 5, 5), ALL, make_rect(-4, 0, 4, 8)),
        (turn, unit, ALL, make_rect(-1, 0, 1, 2)),
        (
            identity(),
            ten,
            make_rect(3, 4, 100, 100),
            make_rect(3, 4, 11, 11),
        ),
        (
            identity(),
            ten,
            make_rect(10, 10, 20, 20),
            make_rect(10, 10, 11, 11),
        ),
        (
            identity(),
            ten,
            make_rect(11, 0, 20, 20),
            make_rect(0, 0, 0, 0),
        ),
        (
            identity(),
            ten,
            make_rect(0, -9, 20, 0),
            make_rect(0, 0, 0, 0),
        ),
        (
            identity(),
            ten,
            make_rect(2, 2, 5, 7),
            make_rect(2, 2, 5, 7),
        ),
        (
            scale(1 << 30, 1 << 30, 1),
            make_rect(-(1 << 28), -(1 << 28), 1 << 28, 1 << 28),
            ALL,
            ALL,
        ),
        (
            scale(1 << 30, 1, 1),
            make_rect(1 << 28, 0, 1 << 28, 9),
            ALL,
            make_rect(0, 0, 0, 0),
        ),
    ];
    for (m, r, region, want) in cases {
        assert_eq!(rt; hull_in(&rt, &m, &r, &region), want, "{m:?} {r:?}");
    }
}
