use super::*;

const END: i128 = 1 << 126;

#[test]
fn finds_the_greatest_common_divisor(rt: HostRuntime) {
    let cases = [
        (0, 0, 0),
        (0, 7, 7),
        (-7, 0, 7),
        (1, 0, 1),
        (12, 18, 6),
        (-12, 18, 6),
        (12, -18, 6),
        (-12, -18, 6),
        (17, 5, 1),
        (5, 17, 1),
        (48, 36, 12),
        (1_071, 462, 21),
        (END, END, END),
        (-END, 0, END),
        (END, -END + 1, 1),
        (-END, 96, 32),
    ];
    for (a, b, want) in cases {
        assert_eq!(rt; gcd(a, b), want, "of {a} and {b}");
        assert_eq!(rt; gcd(b, a), want, "of {b} and {a}");
    }
}

#[test]
fn rounds_down_and_up(rt: HostRuntime) {
    let cases = [
        (7, 2, 3, 4),
        (-7, 2, -4, -3),
        (7, -2, -4, -3),
        (-7, -2, 3, 4),
        (6, 2, 3, 3),
        (-6, 2, -3, -3),
        (6, -2, -3, -3),
        (-6, -2, 3, 3),
        (0, 5, 0, 0),
        (0, -5, 0, 0),
        (1, 3, 0, 1),
        (-1, 3, -1, 0),
        (1, -3, -1, 0),
        (-1, -3, 0, 1),
        (2, 3, 0, 1),
        (5, 1, 5, 5),
        (5, -1, -5, -5),
        (END, 1, END, END),
        (-END, 1, -END, -END),
        (END, -1, -END, -END),
        (1, END, 0, 1),
        (-1, END, -1, 0),
        (1, -END, -1, 0),
        (-1, -END, 0, 1),
        (END, END, 1, 1),
        (END - 1, END, 0, 1),
        (1 - END, END, -1, 0),
    ];
    for (n, d, down, up) in cases {
        assert!(rt; d != 0 && n.unsigned_abs() <= 1 << 126 && d.unsigned_abs() <= 1 << 126);
        assert_eq!(rt; floor_div(n, d), down, "{n} / {d} rounded down");
        assert_eq!(rt; ceil_div(n, d), up, "{n} / {d} rounded up");
    }
}
