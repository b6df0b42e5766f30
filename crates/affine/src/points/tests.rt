use super::*;
use crate::{compose, from_parts, identity, quarter, scale, translate};
use std::process::Abort;

fn local_at(rt: &impl Abort, m: &Map, x: i64, y: i64) -> Option<(i128, i128)> {
    assert!(rt; x.unsigned_abs() <= 1 << 20);
    assert!(rt; y.unsigned_abs() <= 1 << 20);
    local(m, x, y)
}

#[test]
fn rounds_the_preimage_down(rt: HostRuntime) {
    let turn = from_parts(&Parts {
        a: 3,
        b: 4,
        c: -4,
        d: 3,
        e: 0,
        f: 0,
        q: 5,
    })
    .expect(&rt, "a turn");
    let placed = compose(&translate(50, 50, 1), &turn).expect(&rt, "a turn about (50, 50)");
    let far = from_parts(&Parts {
        a: 1,
        b: 0,
        c: 0,
        d: 1,
        e: 1 << 70,
        f: -(1 << 70),
        q: 1,
    })
    .expect(&rt, "a long way");
    let cases = [
        (identity(), 5i64, 7i64, Some((320, 448))),
        (identity(), -5, -7, Some((-320, -448))),
        (translate(10, 20, 1), 15, 27, Some((320, 448))),
        (translate(1, -1, 3), 0, 0, Some((-22, 21))),
        (scale(2, 2, 1), 5, 7, Some((160, 224))),
        (scale(3, 3, 1), 1, -1, Some((21, -22))),
        (scale(-3, -3, 1), 1, -1, Some((-22, 21))),
        (scale(1, 1, 3), 1, -1, Some((192, -192))),
        (scale(-1, 1, 1), 5, 7, Some((-320, 448))),
        (quarter(1), 5, 7, Some((448, -320))),
        (quarter(2), 5, 7, Some((-320, -448))),
        (quarter(3), 5, 7, Some((-448, 320))),
        (scale(0, 1, 1), 5, 7, None),
        (scale(0, 0, 1), 0, 0, None),
        (placed, 63, 52, Some((601, -589))),
        (placed, 64, 52, Some((640, -640))),
        (placed, 52, 36, Some((-640, -640))),
        (placed, 50, 50, Some((0, 0))),
        (
            far,
            1 << 20,
            -(1 << 20),
            Some(((1 << 26) - (1 << 76), (1 << 76) - (1 << 26))),
        ),
    ];
    for (m, x, y, want) in cases {
        assert_eq!(rt; local_at(&rt, &m, x, y), want, "{m:?} {x} {y}");
        assert_eq!(rt; is_singular(&m), want.is_none(), "{m:?}");
    }
}

#[test]
fn tells_singular_maps(rt: HostRuntime) {
    let cases: [([i8; 4], bool); 5] = [
        ([1, 2, 2, 4], true),
        ([1, 2, -2, -4], true),
        ([0, 1, 1, 0], false),
        ([1, 1, 1, 2], false),
        ([0, 0, 0, 0], true),
    ];
    for ([a, b, c, d], want) in cases {
        let parts = Parts {
            a: i128::from(a),
            b: i128::from(b),
            c: i128::from(c),
            d: i128::from(d),
            e: 0,
            f: 0,
            q: 3,
        };
        let m = from_parts(&parts).expect(&rt, "a small map");
        assert_eq!(rt; is_singular(&m), want);
    }
}
