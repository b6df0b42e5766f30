// The keys of a style that are inherited.

use super::{added, assert_row};
use computed_style::{Ends, PointerEvents, Rule, Style};
use std::test::Fail;

// What the inherited keys set.
#[derive(Clone, Copy, Debug, PartialEq)]
struct Given {
    visible: Option<bool>,
    pointer: Option<PointerEvents>,
    fill: Option<bool>,
    stroke: Option<bool>,
    stroke_width: Option<i64>,
    rule: Option<Rule>,
    ends: Option<Ends>,
}

const NOTHING: Given = Given {
    visible: None,
    pointer: None,
    fill: None,
    stroke: None,
    stroke_width: None,
    rule: None,
    ends: None,
};

fn given_by(style: &Style) -> Given {
    Given {
        visible: style.visible,
        pointer: style.pointer,
        fill: style.fill,
        stroke: style.stroke,
        stroke_width: style.stroke_width,
        rule: style.rule,
        ends: style.ends,
    }
}

const ALL: Option<Given> = Some(Given {
    visible: Some(true),
    pointer: Some(PointerEvents::All),
    fill: Some(false),
    stroke: Some(true),
    stroke_width: Some(4096),
    rule: Some(Rule::NonZero),
    ends: Some(Ends::Butt),
});

const OTHER: Option<Given> = Some(Given {
    fill: Some(true),
    stroke: Some(false),
    rule: Some(Rule::EvenOdd),
    ..NOTHING
});

const KEYS: &[(&str, Option<Given>)] = &[
    (
        r#""visibility":"visible""#,
        Some(Given {
            visible: Some(true),
            ..NOTHING
        }),
    ),
    (
        r#""visibility":"hidden""#,
        Some(Given {
            visible: Some(false),
            ..NOTHING
        }),
    ),
    (
        r#""visibility":"collapse""#,
        Some(Given {
            visible: Some(false),
            ..NOTHING
        }),
    ),
    (r#""visibility":"none""#, None),
    (
        r#""pointer-events":"auto""#,
        Some(Given {
            pointer: Some(PointerEvents::Auto),
            ..NOTHING
        }),
    ),
    (
        r#""pointer-events":"none""#,
        Some(Given {
            pointer: Some(PointerEvents::None),
            ..NOTHING
        }),
    ),
    (
        r#""pointer-events":"visiblePainted""#,
        Some(Given {
            pointer: Some(PointerEvents::VisiblePainted),
            ..NOTHING
        }),
    ),
    (
        r#""pointer-events":"visibleFill""#,
        Some(Given {
            pointer: Some(PointerEvents::VisibleFill),
            ..NOTHING
        }),
    ),
    (
        r#""pointer-events":"visibleStroke""#,
        Some(Given {
            pointer: Some(PointerEvents::VisibleStroke),
            ..NOTHING
        }),
    ),
    (
        r#""pointer-events":"visible""#,
        Some(Given {
            pointer: Some(PointerEvents::Visible),
            ..NOTHING
        }),
    ),
    (
        r#""pointer-events":"painted""#,
        Some(Given {
            pointer: Some(PointerEvents::Painted),
            ..NOTHING
        }),
    ),
    (
        r#""pointer-events":"fill""#,
        Some(Given {
            pointer: Some(PointerEvents::Fill),
            ..NOTHING
        }),
    ),
    (
        r#""pointer-events":"stroke""#,
        Some(Given {
            pointer: Some(PointerEvents::Stroke),
            ..NOTHING
        }),
    ),
    (
        r#""pointer-events":"all""#,
        Some(Given {
            pointer: Some(PointerEvents::All),
            ..NOTHING
        }),
    ),
    (r#""pointer-events":"bounding-box""#, None),
    (r#""fill":"red""#, None),
    (r#""stroke":"red""#, None),
    (
        r#""stroke-width":0"#,
        Some(Given {
            stroke_width: Some(0),
            ..NOTHING
        }),
    ),
    (
        r#""stroke-width":67108864"#,
        Some(Given {
            stroke_width: Some(67108864),
            ..NOTHING
        }),
    ),
    (r#""stroke-width":67108865"#, None),
    (r#""stroke-width":-1"#, None),
    (r#""fill-rule":"odd""#, None),
    (
        r#""stroke-linecap":"round""#,
        Some(Given {
            ends: Some(Ends::Round),
            ..NOTHING
        }),
    ),
    (
        r#""stroke-linecap":"square""#,
        Some(Given {
            ends: Some(Ends::Square),
            ..NOTHING
        }),
    ),
    (r#""stroke-linecap":"arrow""#, None),
    (
        r#""fill":"paint","stroke":"none","fill-rule":"evenodd""#,
        OTHER,
    ),
    (
        r#""visibility":"visible","pointer-events":"all","fill":"none","stroke":"paint","stroke-width":4096,"fill-rule":"nonzero","stroke-linecap":"butt""#,
        ALL,
    ),
];

#[test]
fn each_inherited_key_has_its_values(rt: HostRuntime) -> Result<(), Fail> {
    let alloc = rt.alloc();
    for (text, expected) in KEYS {
        let style = format!(in alloc; "{{{text}}}")?;
        let set = added(alloc, r#""block""#, &style)?.map(|node| given_by(&node.1));
        assert_row(&rt, text, &set, expected);
    }
    Ok(())
}
