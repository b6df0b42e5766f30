use crate::{Corners, Edges, Rounded, is_within_ellipse, used_radii};

#[test]
fn used_radii_by_hand(rt: HostRuntime) {
    // the sides in units, the given radii in units, and the used radii in fine units
    let cases = [
        // far apart: nothing is reduced
        (
            100,
            50,
            [10, 20, 5, 5, 0, 7, 3, 1],
            [640, 1280, 320, 320, 0, 448, 192, 64],
        ),
        // they just meet on all four sides
        (
            100,
            60,
            [50, 30, 50, 30, 50, 30, 50, 30],
            [3200, 1920, 3200, 1920, 3200, 1920, 3200, 1920],
        ),
        // the top side is short: f = 100 / 150
        (
            100,
            1000,
            [90, 30, 60, 30, 0, 0, 0, 0],
            [3840, 1280, 2560, 1280, 0, 0, 0, 0],
        ),
        // the right side is short: f = 40 / 60, while the top would do with 100 / 101
        (
            100,
            40,
            [51, 1, 50, 30, 1, 30, 0, 0],
            [2176, 42, 2133, 1280, 42, 1280, 0, 0],
        ),
        // the bottom side is short: f = 10 / 40
        (
            10,
            90,
            [4, 4, 4, 4, 30, 2, 10, 8],
            [64, 64, 64, 64, 480, 32, 160, 128],
        ),
        // the left side is short: f = 7 / 21
        (
            80,
            7,
            [1, 11, 1, 1, 1, 1, 2, 10],
            [21, 234, 21, 21, 21, 21, 42, 213],
        ),
        // all sides are short, and the least share is that of height: f = 30 / 200
        (
            40,
            30,
            [100, 100, 100, 100, 100, 100, 100, 100],
            [960, 960, 960, 960, 960, 960, 960, 960],
        ),
        // no radii, and a box without a width
        (10, 10, [0, 0, 0, 0, 0, 0, 0, 0], [0, 0, 0, 0, 0, 0, 0, 0]),
        (0, 10, [1, 1, 0, 0, 0, 0, 1, 1], [0, 0, 0, 0, 0, 0, 0, 0]),
        // a box of 6,400 by 2,560 units: 64 * 2,560 / 1,279,872 * 639,936 = 81,920 fine units, 1,280 units
        (
            6400,
            2560,
            [
                639936, 639936, 639936, 639936, 639936, 639936, 639936, 639936,
            ],
            [81920, 81920, 81920, 81920, 81920, 81920, 81920, 81920],
        ),
    ];
    for (w, h, given, used) in cases {
        let corners = Corners { r: given };
        assert_eq!(rt; used_radii(w, h, &corners), Corners { r: used });
    }
}

#[test]
fn padding_curves_by_hand(rt: HostRuntime) {
    let border_box = Rounded {
        l: 0,
        t: 0,
        r: 409600,
        b: 163840,
        corners: Corners { r: [81920; 8] },
    };
    // borders of 640 units leave radii of 640 units
    let even = Edges {
        top: 640,
        right: 640,
        bottom: 640,
        left: 640,
    };
    let inner = Rounded {
        l: 40960,
        t: 40960,
        r: 368640,
        b: 122880,
        corners: Corners { r: [40960; 8] },
    };
    assert_eq!(rt; border_box.inner(&even), inner);

    // four borders of their own: each radius loses the border on its side, and none falls below 0
    let uneven = Edges {
        top: 1,
        right: 2,
        bottom: 3,
        left: 1300,
    };
    let corners = Corners {
        r: [100000, 500, 500, 63, 127, 200, 300, 191],
    };
    let cut = Rounded {
        l: 83200,
        t: 64,
        r: 409472,
        b: 163648,
        corners: Corners {
            r: [16800, 436, 372, 0, 0, 8, 0, 0],
        },
    };
    let odd_box = Rounded {
        corners,
        ..border_box
    };
    assert_eq!(rt; odd_box.inner(&uneven), cut);
}

#[test]
fn held_points_by_hand(rt: HostRuntime) {
    // radii 5 and 5 at the top left, 10 and 5 at the top right, none at the bottom right, 3 and 4 at the
    // bottom left
    let rounded = Rounded {
        l: 0,
        t: 0,
        r: 40,
        b: 30,
        corners: Corners {
            r: [5, 5, 10, 5, 0, 8, 3, 4],
        },
    };
    let cases = [
        // the top left corner's ellipse has its centre at 5, 5: a distance of 3 and 4 is on it
        (2, 1, true),
        (1, 2, true),
        (1, 1, false),
        (2, 0, false),
        (0, 5, true),
        (5, 0, true),
        (0, 4, false),
        (4, 0, false),
        // the top right one has its centre at 30, 5: a distance of 6 and 4, of 8 and 3 is on it
        (36, 1, true),
        (37, 1, false),
        (38, 2, true),
        (39, 2, false),
        (30, 0, true),
        (31, 0, false),
        (39, 5, true),
        // the bottom right corner is square, and its edges are out
        (39, 29, true),
        (40, 29, false),
        (39, 30, false),
        // the bottom left one has its centre at 3, 26
        (0, 26, true),
        (0, 27, false),
        (1, 28, true),
        (1, 29, false),
        (3, 29, true),
        // inside and far off
        (20, 15, true),
        (-1, 15, false),
        (20, -1, false),
        (i128::MAX, 15, false),
        (20, i128::MIN, false),
    ];
    for (x, y, held) in cases {
        assert_eq!(rt; rounded.holds(x, y), held);
    }

    // between borders that are thicker than it a box holds nothing
    let thin = Rounded {
        l: 20,
        t: 0,
        r: 10,
        b: 30,
        corners: Corners { r: [0; 8] },
    };
    assert_eq!(rt; thin.holds(15, 15), false);
}

#[test]
fn ellipses_by_hand(rt: HostRuntime) {
    let longest = 1u64 << 28;
    // the distances across and down, the radii, and whether the ellipse holds the point
    for (dx, dy, x_radius, y_radius, is_in) in [
        (0, 0, 5, 3, true),
        (5, 0, 5, 3, true),
        (0, 3, 5, 3, true),
        // 12^2 + 5^2 = 169, and 15^2 = 225
        (4, 1, 5, 3, true),
        // 9^2 + 10^2 = 181
        (3, 2, 5, 3, true),
        // 12^2 + 10^2 = 244
        (4, 2, 5, 3, false),
        (3, 4, 5, 5, true),
        (4, 4, 5, 5, false),
        (1u128 << 28, 0, longest, longest, true),
        (1u128 << 28, 1, longest, longest, false),
    ] {
        assert!(rt; dx <= u128::from(x_radius) && dy <= u128::from(y_radius));
        assert!(rt; x_radius <= longest && y_radius <= longest);
        assert_eq!(rt;
            is_within_ellipse(dx, dy, x_radius, y_radius),
            is_in,
            "{dx} {dy}"
        );
    }
}
