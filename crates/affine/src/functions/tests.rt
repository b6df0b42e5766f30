use super::*;

fn numbers(m: &Map) -> [i128; 7] {
    let Parts {
        a,
        b,
        c,
        d,
        e,
        f,
        q,
    } = m.parts();
    [a, b, c, d, e, f, q]
}

#[test]
fn makes_the_maps_of_transform_functions(rt: HostRuntime) {
    let cases = [
        (identity(), [1, 0, 0, 1, 0, 0, 1]),
        (translate(3, -5, 1), [1, 0, 0, 1, 3, -5, 1]),
        (translate(3, -5, 2), [2, 0, 0, 2, 3, -5, 2]),
        (translate(6, -4, 2), [1, 0, 0, 1, 3, -2, 1]),
        (translate(0, 0, 9), [1, 0, 0, 1, 0, 0, 1]),
        (
            translate(1 << 40, -(1 << 40), 1 << 30),
            [1, 0, 0, 1, 1 << 10, -(1 << 10), 1],
        ),
        (scale(2, 3, 1), [2, 0, 0, 3, 0, 0, 1]),
        (scale(-1, 4, 2), [-1, 0, 0, 4, 0, 0, 2]),
        (scale(6, 4, 10), [3, 0, 0, 2, 0, 0, 5]),
        (scale(0, 0, 3), [0, 0, 0, 0, 0, 0, 1]),
        (
            scale(1 << 30, 1, 1 << 30),
            [1 << 30, 0, 0, 1, 0, 0, 1 << 30],
        ),
        (quarter(0), [1, 0, 0, 1, 0, 0, 1]),
        (quarter(1), [0, 1, -1, 0, 0, 0, 1]),
        (quarter(2), [-1, 0, 0, -1, 0, 0, 1]),
        (quarter(3), [0, -1, 1, 0, 0, 0, 1]),
    ];
    for (made, want) in cases {
        assert_eq!(rt; numbers(&made), want);
    }
}

#[test]
fn makes_the_map_of_a_function(rt: HostRuntime) {
    let cases = [
        (
            matrix(&Function::Matrix {
                a: 3,
                b: 4,
                c: -4,
                d: 3,
                e: 0,
                f: 0,
                q: 5,
            }),
            [3, 4, -4, 3, 0, 0, 5],
        ),
        (
            matrix(&Function::Matrix {
                a: 2,
                b: -4,
                c: 6,
                d: -8,
                e: 1 << 40,
                f: -(1 << 40),
                q: 2,
            }),
            [1, -2, 3, -4, 1 << 39, -(1 << 39), 1],
        ),
        (
            matrix(&Function::Translate { x: 64, y: -64 }),
            [1, 0, 0, 1, 64, -64, 1],
        ),
        (
            matrix(&Function::Scale { x: 6, y: -4, q: 4 }),
            [3, 0, 0, -2, 0, 0, 2],
        ),
        (
            matrix(&Function::Quarter { turns: 3 }),
            [0, -1, 1, 0, 0, 0, 1],
        ),
    ];
    for (made, want) in cases {
        assert_eq!(rt; numbers(&made), want);
    }
}
