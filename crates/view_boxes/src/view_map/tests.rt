use super::*;
use std::process::Abort;

const AXIS: [Side; 3] = [Side::Min, Side::Mid, Side::Max];

// What a viewport that is in range answers.
fn answer(rt: &impl Abort, w: i64, h: i64, port: &Port) -> ViewMap {
    assert!(rt; 0 <= w);
    assert!(rt; w <= 1 << 32);
    assert!(rt; 0 <= h);
    assert!(rt; h <= 1 << 32);
    assert!(rt; port.in_range());
    view_box(w, h, port)
}

// The parts of the map that a viewport of these numbers, x, y, w and h, gives, where it gives one.
fn given(rt: &impl Abort, viewport: [i64; 4], view: Option<ViewBox>) -> Option<[i128; 5]> {
    let [x, y, w, h] = viewport;
    let port = Port {
        x,
        y,
        w: 0,
        h: 0,
        view,
    };
    match answer(rt, w, h, &port) {
        ViewMap::Given { map } => {
            let parts = map.parts();
            assert_eq!(rt; (parts.b, parts.c), (0, 0));
            Some([parts.a, parts.d, parts.e, parts.f, parts.q])
        }
        ViewMap::Disabled | ViewMap::Beyond => None,
    }
}

fn view(numbers: [i64; 4], align: Align, fit: Fit) -> ViewBox {
    let [x, y, w, h] = numbers;
    ViewBox {
        x,
        y,
        w,
        h,
        align,
        fit,
    }
}

// The viewport of 400 by 200 units stands at (10, 20), and the viewBox of 100 by 100 at (1, -2). `meet` doubles it and
// leaves 200 units across, `slice` takes it four times and passes the viewport by 200 units down.
#[test]
fn each_align_and_fit(rt: HostRuntime) {
    let viewport = [640, 1280, 25600, 12800];
    let inside = [64, -128, 6400, 6400];
    for (column, x) in AXIS.iter().enumerate() {
        for (row, y) in AXIS.iter().enumerate() {
            let align = Align::Keep { x: *x, y: *y };
            let meet = view(inside, align, Fit::Meet);
            let slice = view(inside, align, Fit::Slice);
            let across = [8, 108, 208][column];
            let down = [28, -72, -172][row];
            assert_eq!(&rt;
                given(&rt, viewport, Some(meet)),
                Some([2, 2, across, 24, 1])
            );
            assert_eq!(&rt; given(&rt, viewport, Some(slice)), Some([4, 4, 6, down, 1]));
        }
    }
    for fit in [Fit::Meet, Fit::Slice] {
        let stretched = view(inside, Align::Stretch, fit);
        assert_eq!(&rt;
            given(&rt, viewport, Some(stretched)),
            Some([4, 2, 6, 24, 1])
        );
    }
}

// Maps that aren't whole, without a viewBox, and at the bound: 2^44 - 1 is (2^22 - 1) (2^22 + 1).
#[test]
fn exact_maps_up_to_the_bound(rt: HostRuntime) {
    let middle = Align::Keep {
        x: Side::Mid,
        y: Side::Mid,
    };
    let end = Align::Keep {
        x: Side::Max,
        y: Side::Max,
    };
    let square = [0, 0, 100, 100];
    let thirds = view([0, 0, 3, 7], Align::Stretch, Fit::Meet);
    let moved = view([5, 1, 3, 7], Align::Stretch, Fit::Slice);
    let largest = view([0, 0, 4_194_305, 4_194_303], Align::Stretch, Fit::Meet);
    let beyond = view([0, 0, 4_194_305, 4_194_307], Align::Stretch, Fit::Meet);
    let rows = [
        ([0, 0, 100, 100], Some(thirds), Some([700, 300, 0, 0, 21])),
        // (1 - 5 / 3) / 64 and (2 - 1 / 7) / 64, and so -14 / 1344 and 39 / 1344
        ([1, 2, 1, 1], Some(moved), Some([448, 192, -14, 39, 1344])),
        (
            [0, 0, 101, 50],
            Some(view([0, 0, 50, 50], middle, Fit::Meet)),
            Some([128, 128, 51, 0, 128]),
        ),
        (
            [0, 0, 100, 201],
            Some(view(square, middle, Fit::Meet)),
            Some([128, 128, 0, 101, 128]),
        ),
        (
            [0, 0, 100, 201],
            Some(view(square, end, Fit::Meet)),
            Some([64, 64, 0, 101, 64]),
        ),
        ([64, -32, 100, 100], None, Some([2, 2, 2, -1, 2])),
        (
            [0, 0, 1, 1],
            Some(largest),
            Some([4_194_303, 4_194_305, 0, 0, 17_592_186_044_415]),
        ),
        ([0, 0, 1, 1], Some(beyond), None),
    ];
    for (viewport, view, want) in rows {
        assert_eq!(rt; given(&rt, viewport, view), want, "{viewport:?}");
    }
}

// A side of 0 disables also where the map would be beyond the bound.
#[test]
fn disabled_before_beyond(rt: HostRuntime) {
    let stretched = |w, h| Some(view([0, 0, w, h], Align::Stretch, Fit::Meet));
    let rows = [
        (0, 5, None, ViewMap::Disabled),
        (5, 0, None, ViewMap::Disabled),
        (0, 5, stretched(4_194_305, 4_194_307), ViewMap::Disabled),
        (5, 0, stretched(1, 1), ViewMap::Disabled),
        (5, 5, stretched(0, 1), ViewMap::Disabled),
        (5, 5, stretched(1, 0), ViewMap::Disabled),
        (1, 1, stretched(4_194_305, 4_194_307), ViewMap::Beyond),
    ];
    for (w, h, view, want) in rows {
        let port = Port {
            x: 7,
            y: -7,
            w: 9,
            h: 9,
            view,
        };
        assert_eq!(rt; answer(&rt, w, h, &port), want);
    }
}
