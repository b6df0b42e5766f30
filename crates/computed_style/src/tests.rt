use super::*;
use std::process::Abort;
use std::test::Fail;

// What is admitted where the pointer is over neither, over the interior, over the perimeter, over both.
const NEVER: [bool; 4] = [false, false, false, false];

const OVER_FILL: [bool; 4] = [false, true, false, true];

const OVER_STROKE: [bool; 4] = [false, false, true, true];

const EITHER: [bool; 4] = [false, true, true, true];

fn assert_admits(rt: &impl Abort, values: &Inherited, admitted: [bool; 4]) {
    assert_eq!(rt; admits_shape(values, false, false), admitted[0]);
    assert_eq!(rt; admits_shape(values, true, false), admitted[1]);
    assert_eq!(rt; admits_shape(values, false, true), admitted[2]);
    assert_eq!(rt; admits_shape(values, true, true), admitted[3]);
}

// The rows are for fill and stroke none, fill painted, stroke painted, both painted.
fn assert_rows(rt: &impl Abort, pointer: PointerEvents, visible: bool, rows: [[bool; 4]; 4]) {
    let neither = Inherited {
        visible,
        pointer,
        fill: false,
        stroke: false,
        ..Inherited::initial()
    };
    let fill = Inherited {
        fill: true,
        ..neither
    };
    let stroke = Inherited {
        stroke: true,
        ..neither
    };
    let both = Inherited {
        stroke: true,
        ..fill
    };
    assert_admits(rt, &neither, rows[0]);
    assert_admits(rt, &fill, rows[1]);
    assert_admits(rt, &stroke, rows[2]);
    assert_admits(rt, &both, rows[3]);
}

#[test]
fn shapes_by_the_table_of_pointer_events(rt: HostRuntime) {
    let nothing = [NEVER; 4];
    let painted = [NEVER, OVER_FILL, OVER_STROKE, EITHER];
    let table = [
        // the value, then the rows where it is visible, and where it isn't
        (PointerEvents::Auto, painted, nothing),
        (PointerEvents::None, nothing, nothing),
        (PointerEvents::VisiblePainted, painted, nothing),
        (PointerEvents::VisibleFill, [OVER_FILL; 4], nothing),
        (PointerEvents::VisibleStroke, [OVER_STROKE; 4], nothing),
        (PointerEvents::Visible, [EITHER; 4], nothing),
        (PointerEvents::Painted, painted, painted),
        (PointerEvents::Fill, [OVER_FILL; 4], [OVER_FILL; 4]),
        (PointerEvents::Stroke, [OVER_STROKE; 4], [OVER_STROKE; 4]),
        (PointerEvents::All, [EITHER; 4], [EITHER; 4]),
    ];
    for (pointer, shown, hidden) in table {
        assert_rows(&rt, pointer, true, shown);
        assert_rows(&rt, pointer, false, hidden);
    }
}

#[test]
fn boxes_by_visibility_and_pointer_events(rt: HostRuntime) {
    let table = [
        (PointerEvents::Auto, true),
        (PointerEvents::None, false),
        (PointerEvents::VisiblePainted, true),
        (PointerEvents::VisibleFill, true),
        (PointerEvents::VisibleStroke, true),
        (PointerEvents::Visible, true),
        (PointerEvents::Painted, true),
        (PointerEvents::Fill, true),
        (PointerEvents::Stroke, true),
        (PointerEvents::All, true),
    ];
    for (pointer, admitted) in table {
        let shown = Inherited {
            pointer,
            ..Inherited::initial()
        };
        let hidden = Inherited {
            visible: false,
            ..shown
        };
        assert_eq!(rt; admits_box(&shown), admitted);
        assert!(rt; !admits_box(&hidden));
    }
}

#[test]
fn defaults_of_each_key(rt: HostRuntime) {
    let style = Style::new(rt.alloc());
    assert_eq!(rt; style.position, Position::Static);
    assert!(rt; !style.floats);
    assert_eq!(rt; style.z, None);
    assert_eq!(rt; style.opacity, 1000);
    assert!(rt; style.transform.0.is_empty());
    assert_eq!(rt; style.origin, None);
    assert_eq!(rt; style.overflow, None);
    assert_eq!(rt; style.border, [0, 0, 0, 0]);
    assert_eq!(rt; style.radii, [0, 0, 0, 0, 0, 0, 0, 0]);
    assert!(rt; !style.display_block);

    let initial = compute(&Inherited::initial(), &style);
    assert!(rt; initial.visible);
    assert_eq!(rt; initial.pointer, PointerEvents::Auto);
    assert!(rt; initial.fill);
    assert!(rt; !initial.stroke);
    assert_eq!(rt; initial.stroke_width, 4096);
    assert_eq!(rt; initial.rule, Rule::NonZero);
    assert_eq!(rt; initial.ends, Ends::Butt);
}

#[test]
fn declared_values_replace_inherited_ones(rt: HostRuntime) {
    let above = Inherited {
        visible: false,
        pointer: PointerEvents::All,
        fill: false,
        stroke: true,
        stroke_width: 7,
        rule: Rule::EvenOdd,
        ends: Ends::Round,
    };
    let mut own = Style::new(rt.alloc());
    assert_eq!(rt; compute(&above, &own), above);

    own.visible = Some(true);
    own.fill = Some(true);
    own.rule = Some(Rule::NonZero);
    let first = Inherited {
        visible: true,
        pointer: PointerEvents::All,
        fill: true,
        stroke: true,
        stroke_width: 7,
        rule: Rule::NonZero,
        ends: Ends::Round,
    };
    assert_eq!(rt; compute(&above, &own), first);

    own.pointer = Some(PointerEvents::None);
    own.stroke = Some(false);
    own.stroke_width = Some(0);
    own.ends = Some(Ends::Square);
    let second = Inherited {
        visible: true,
        pointer: PointerEvents::None,
        fill: true,
        stroke: false,
        stroke_width: 0,
        rule: Rule::NonZero,
        ends: Ends::Square,
    };
    assert_eq!(rt; compute(&above, &own), second);
}

// A style in which each key is declared, and none as it is where nothing is; and the text of the error.
#[test]
fn copies_with_ample_memory(rt: HostRuntime) -> Result<(), Fail> {
    let functions = [
        Function::Translate { x: 1, y: -2 },
        Function::Quarter { turns: 3 },
        Function::Scale { x: 3, y: 4, q: 5 },
    ];
    let style = Style {
        position: Position::Fixed,
        floats: true,
        z: Some(-4),
        opacity: 999,
        transform: Functions(Vec::from_array(rt.alloc(), functions)?),
        origin: Some((13, -14)),
        overflow: Some(Overflow::Auto),
        border: [1, 2, 3, 4],
        radii: [5, 6, 7, 8, 9, 10, 11, 12],
        display_block: true,
        visible: Some(false),
        pointer: Some(PointerEvents::Fill),
        fill: Some(false),
        stroke: Some(true),
        stroke_width: Some(7),
        rule: Some(Rule::EvenOdd),
        ends: Some(Ends::Round),
    };
    let copied = format!(in rt.alloc(); "{:?}", style.copy()?)?;
    let fields =
        "Style { position: Fixed, floats: true, z: Some(-4), opacity: 999, transform: Functions([Translate { x: 1, y: -2 }, Quarter { turns: 3 }, Scale { x: 3, y: 4, q: 5 }]), origin: Some((13, -14)), overflow: Some(Auto), border: [1, 2, 3, 4], radii: [5, 6, 7, 8, 9, 10, 11, 12], display_block: true, visible: Some(false), pointer: Some(Fill), fill: Some(false), stroke: Some(true), stroke_width: Some(7), rule: Some(EvenOdd), ends: Some(Round) }";
    assert_eq!(rt; copied.as_str(), fields);
    let refused = format!(in rt.alloc(); "{OutOfMemory}")?;
    assert_eq!(rt; refused.as_str(), "out of memory");
    Ok(())
}

#[test]
fn styles_reach_their_limits_and_no_further(rt: HostRuntime) -> Result<(), Fail> {
    let alloc = rt.alloc();
    let style = || -> Style { Style::new(alloc) };
    assert!(rt; style().in_range() && style().is_empty());
    for (changed, in_range) in [
        (
            Style {
                opacity: 0,
                ..style()
            },
            true,
        ),
        (
            Style {
                opacity: 999,
                ..style()
            },
            true,
        ),
        (
            Style {
                opacity: 1001,
                ..style()
            },
            false,
        ),
        (
            Style {
                border: [0, 0, 0, 1 << 20],
                ..style()
            },
            true,
        ),
        (
            Style {
                border: [0, 0, (1 << 20) + 1, 0],
                ..style()
            },
            false,
        ),
        (
            Style {
                border: [-1, 0, 0, 0],
                ..style()
            },
            false,
        ),
        (
            Style {
                radii: [0, 0, 0, 0, 0, 0, 0, 1 << 20],
                ..style()
            },
            true,
        ),
        (
            Style {
                radii: [0, 0, 0, 0, 0, 0, 0, -1],
                ..style()
            },
            false,
        ),
        (
            Style {
                origin: Some((1 << 26, -(1 << 26))),
                ..style()
            },
            true,
        ),
        (
            Style {
                origin: Some((0, (1 << 26) + 1)),
                ..style()
            },
            false,
        ),
        (
            Style {
                stroke_width: Some(1 << 26),
                ..style()
            },
            true,
        ),
        (
            Style {
                stroke_width: Some((1 << 26) + 1),
                ..style()
            },
            false,
        ),
        (
            Style {
                stroke_width: Some(-1),
                ..style()
            },
            false,
        ),
        (
            Style {
                z: Some(i32::MIN),
                ..style()
            },
            true,
        ),
    ] {
        assert_eq!(rt; changed.in_range(), in_range, "{changed:?}");
        assert!(rt; !changed.is_empty(), "{changed:?}");
    }
    Ok(())
}
