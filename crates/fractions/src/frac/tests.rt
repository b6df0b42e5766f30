ghost use Rattle.std.specs.Prelude.{◌^◌};
ghost use Rattle.fractions.specs.Fraction.{IsWithin};

use super::*;
use std::process::Abort;

const END: i128 = 1 << 126;

const WIDE: i128 = 1 << 62;

// A fraction of numbers that are narrow enough to be added, multiplied and compared.
fn narrow(rt: &impl Abort, ratio: (i128, i128)) -> Frac
    ensures { IsWithin result (2 ^ 62) }
{
    let (n, d) = ratio;
    assert!(rt; d != 0 && n.unsigned_abs() <= 1 << 62 && d.unsigned_abs() <= 1 << 62);
    Frac::make(n, d)
}

#[test]
fn makes_lowest_terms(rt: HostRuntime) {
    let cases = [
        (6, 4, 3, 2),
        (-6, 4, -3, 2),
        (6, -4, -3, 2),
        (-6, -4, 3, 2),
        (0, 5, 0, 1),
        (0, -5, 0, 1),
        (7, 1, 7, 1),
        (7, -1, -7, 1),
        (5, 3, 5, 3),
        (12, 18, 2, 3),
        (47, 5, 47, 5),
        (-46, 5, -46, 5),
        (END, END, 1, 1),
        (END, -END, -1, 1),
        (END, 1, END, 1),
        (1, -END, -1, END),
        (-END, 96, -(END / 32), 3),
    ];
    for (n, d, num, den) in cases {
        assert!(rt; d != 0);
        let made = Frac::make(n, d);
        assert_eq!(rt; (made.num(), made.den()), (num, den), "{n} / {d}");
    }
}

#[test]
fn adds_and_multiplies(rt: HostRuntime) {
    let cases = [
        ((1, 2), (1, 3), (5, 6), (1, 6)),
        ((-1, 2), (1, 3), (-1, 6), (-1, 6)),
        ((1, -2), (-1, 3), (-5, 6), (1, 6)),
        ((1, 2), (1, 2), (1, 1), (1, 4)),
        ((1, 2), (-1, 2), (0, 1), (-1, 4)),
        ((0, 1), (3, 4), (3, 4), (0, 1)),
        ((0, -3), (0, 7), (0, 1), (0, 1)),
        ((2, 3), (3, 2), (13, 6), (1, 1)),
        ((-4, 6), (9, -6), (-13, 6), (1, 1)),
        ((5, 1), (-7, 1), (-2, 1), (-35, 1)),
        ((1, 6), (1, 10), (4, 15), (1, 60)),
        ((WIDE, 1), (WIDE, 1), (2 * WIDE, 1), (WIDE * WIDE, 1)),
        ((-WIDE, 1), (WIDE, 1), (0, 1), (-WIDE * WIDE, 1)),
        ((1, WIDE), (1, WIDE), (1, WIDE / 2), (1, WIDE * WIDE)),
        (
            (WIDE, WIDE - 1),
            (1, 1),
            (2 * WIDE - 1, WIDE - 1),
            (WIDE, WIDE - 1),
        ),
    ];
    for (first, second, sum, product) in cases {
        let (a, b) = (narrow(&rt, first), narrow(&rt, second));
        let (added, multiplied) = (a.add(b), a.mul(b));
        assert_eq!(rt; (added.num(), added.den()), sum, "{a:?} + {b:?}");
        assert_eq!(rt;
            (multiplied.num(), multiplied.den()),
            product,
            "{a:?} * {b:?}"
        );
    }
}

#[test]
fn orders_by_value(rt: HostRuntime) {
    let cases = [
        ((1, 2), (1, 3), Ordering::Greater),
        ((-1, 2), (1, 3), Ordering::Less),
        ((1, 2), (-1, 3), Ordering::Greater),
        ((-1, 2), (-1, 3), Ordering::Less),
        ((2, 4), (1, 2), Ordering::Equal),
        ((-2, 4), (1, -2), Ordering::Equal),
        ((0, 3), (0, -7), Ordering::Equal),
        ((0, 1), (-1, 5), Ordering::Greater),
        ((0, 1), (1, 5), Ordering::Less),
        ((3, 2), (2, 1), Ordering::Less),
        ((47, 5), (9, 1), Ordering::Greater),
        ((-46, 5), (-9, 1), Ordering::Less),
        ((WIDE, 1), (WIDE - 1, 1), Ordering::Greater),
        ((-WIDE, 1), (WIDE, 1), Ordering::Less),
        ((1, WIDE), (1, WIDE - 1), Ordering::Less),
        ((WIDE, WIDE - 1), (WIDE - 1, WIDE - 2), Ordering::Less),
    ];
    for (first, second, want) in cases {
        let (a, b) = (narrow(&rt, first), narrow(&rt, second));
        assert_eq!(rt; a.cmp(&b), want, "{a:?} and {b:?}");
        assert_eq!(rt; b.cmp(&a), want.reverse(), "{b:?} and {a:?}");
    }
}
