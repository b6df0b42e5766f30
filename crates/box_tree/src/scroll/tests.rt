use super::*;

#[test]
fn a_scroll_is_clamped_between_0_and_the_greatest(rt: HostRuntime) {
    for (scroll, max, expected) in [
        ((0, 999), (0, 40), (0, 40)),
        ((10, 30), (20, 40), (10, 30)),
        ((20, 41), (20, 40), (20, 40)),
        ((21, 0), (20, 40), (20, 0)),
        ((-1, -999), (20, 40), (0, 0)),
        ((7, 7), (0, 0), (0, 0)),
    ] {
        let scroll = Spot {
            x: scroll.0,
            y: scroll.1,
        };
        let max = Spot { x: max.0, y: max.1 };
        let clamped = clamp(scroll, max);
        assert_eq!(rt; (clamped.x, clamped.y), expected);
    }
}
