// The kinds of nodes and the keys of a style that are not inherited.

use super::{added, assert_row};
use crate::{Command, command_of};
use box_tree::{Edit, Kind};
use computed_style::{Overflow, Position, Style};
use std::test::Fail;

const KINDS: &[(&str, Option<Kind>)] = &[
    (r#""block""#, Some(Kind::Block)),
    (r#""inline""#, Some(Kind::Inline)),
    (r#""inline-block""#, Some(Kind::InlineBlock)),
    (r#""image""#, Some(Kind::Image)),
    (r#""text""#, Some(Kind::Text)),
    (r#""map""#, Some(Kind::Map)),
    (r#""area""#, Some(Kind::Area)),
    (r#""svg""#, Some(Kind::Svg)),
    (r#""group""#, Some(Kind::Group)),
    (r#""shape""#, Some(Kind::Shape)),
    (r#""inner""#, Some(Kind::Inner)),
    (r#""canvas""#, None),
    (r#""Block""#, None),
    (r#""""#, None),
    ("0", None),
];

#[test]
fn kinds_have_their_names(rt: HostRuntime) -> Result<(), Fail> {
    for (name, expected) in KINDS {
        let kind = added(rt.alloc(), name, "{}")?.map(|node| node.0);
        assert_row(&rt, name, &kind, expected);
    }
    Ok(())
}

// What the keys that are built set: position, float, z, opacity, border and display.
type Set = (Position, bool, Option<i32>, u16, [i64; 4], bool);

const EMPTY: Set = (Position::Static, false, None, 1000, [0; 4], false);

const KEYS: &[(&str, Option<Set>)] = &[
    (r#"{}"#, Some(EMPTY)),
    (r#"{"position":"static"}"#, Some(EMPTY)),
    (
        r#"{"position":"relative"}"#,
        Some((Position::Relative, false, None, 1000, [0; 4], false)),
    ),
    (
        r#"{"position":"absolute"}"#,
        Some((Position::Absolute, false, None, 1000, [0; 4], false)),
    ),
    (
        r#"{"position":"fixed"}"#,
        Some((Position::Fixed, false, None, 1000, [0; 4], false)),
    ),
    (r#"{"position":"sticky"}"#, None),
    (r#"{"float":"none"}"#, Some(EMPTY)),
    (
        r#"{"float":"left"}"#,
        Some((Position::Static, true, None, 1000, [0; 4], false)),
    ),
    (
        r#"{"float":"right"}"#,
        Some((Position::Static, true, None, 1000, [0; 4], false)),
    ),
    (r#"{"float":true}"#, None),
    (
        r#"{"z":-2147483648}"#,
        Some((Position::Static, false, Some(i32::MIN), 1000, [0; 4], false)),
    ),
    (
        r#"{"z":2147483647}"#,
        Some((Position::Static, false, Some(i32::MAX), 1000, [0; 4], false)),
    ),
    (r#"{"z":-2147483649}"#, None),
    (r#"{"z":2147483648}"#, None),
    (r#"{"z":"auto"}"#, None),
    (r#"{"z":1.5}"#, None),
    (
        r#"{"opacity":0}"#,
        Some((Position::Static, false, None, 0, [0; 4], false)),
    ),
    (r#"{"opacity":1000}"#, Some(EMPTY)),
    (r#"{"opacity":1001}"#, None),
    (r#"{"opacity":-1}"#, None),
    (
        r#"{"border":[0,1048576,2,3]}"#,
        Some((
            Position::Static,
            false,
            None,
            1000,
            [0, 1_048_576, 2, 3],
            false,
        )),
    ),
    (r#"{"border":[0,0,0,1048577]}"#, None),
    (r#"{"border":[-1,0,0,0]}"#, None),
    (r#"{"border":[0,0,0]}"#, None),
    (r#"{"border":[0,0,0,0,0]}"#, None),
    (r#"{"display":"inline"}"#, Some(EMPTY)),
    (
        r#"{"display":"block"}"#,
        Some((Position::Static, false, None, 1000, [0; 4], true)),
    ),
    (r#"{"display":"none"}"#, None),
    (
        r#"{"z":0,"position":"fixed","opacity":5,"display":"block"}"#,
        Some((Position::Fixed, false, Some(0), 5, [0; 4], true)),
    ),
    (r#"{"zindex":1}"#, None),
    (r#"[]"#, None),
    (r#"null"#, None),
];

#[test]
fn each_key_of_a_style_has_its_least_and_its_greatest_value(rt: HostRuntime) -> Result<(), Fail> {
    for (text, expected) in KEYS {
        let set = added(rt.alloc(), r#""block""#, text)?.map(|node| set_by(&node.1));
        assert_row(&rt, text, &set, expected);
    }
    Ok(())
}

fn set_by(style: &Style) -> Set {
    (
        style.position,
        style.floats,
        style.z,
        style.opacity,
        style.border,
        style.display_block,
    )
}

// The overflow and the radii that a style sets.
type Clipped = (Option<Overflow>, [i64; 8]);

const CLIPS: &[(&str, Option<Clipped>)] = &[
    (r#"{}"#, Some((None, [0; 8]))),
    (
        r#"{"overflow":"visible"}"#,
        Some((Some(Overflow::Visible), [0; 8])),
    ),
    (
        r#"{"overflow":"hidden"}"#,
        Some((Some(Overflow::Clip), [0; 8])),
    ),
    (
        r#"{"overflow":"scroll"}"#,
        Some((Some(Overflow::Clip), [0; 8])),
    ),
    (
        r#"{"overflow":"auto"}"#,
        Some((Some(Overflow::Auto), [0; 8])),
    ),
    (r#"{"overflow":"clip"}"#, None),
    (r#"{"overflow":0}"#, None),
    (
        r#"{"radii":[1048576,1,2,3,4,5,6,0]}"#,
        Some((None, [1048576, 1, 2, 3, 4, 5, 6, 0])),
    ),
    (
        r#"{"radii":[0,7,6,5,4,3,2,1048576],"overflow":"auto"}"#,
        Some((Some(Overflow::Auto), [0, 7, 6, 5, 4, 3, 2, 1048576])),
    ),
    (r#"{"radii":[1048577,0,0,0,0,0,0,0]}"#, None),
    (r#"{"radii":[0,0,0,0,0,0,0,1048577]}"#, None),
    (r#"{"radii":[0,-1,0,0,0,0,0,0]}"#, None),
    (r#"{"radii":[0,0,0,0,0,0,0]}"#, None),
    (r#"{"radii":[0,0,0,0,0,0,0,0,0]}"#, None),
];

#[test]
fn an_overflow_has_its_values_and_radii_their_least_and_greatest(
    rt: HostRuntime,
) -> Result<(), Fail> {
    for (text, expected) in CLIPS {
        let set = added(rt.alloc(), r#""block""#, text)?.map(|node| clipped_by(&node.1));
        assert_row(&rt, text, &set, expected);
    }
    Ok(())
}

fn clipped_by(style: &Style) -> Clipped {
    (style.overflow, style.radii)
}

#[test]
fn a_style_is_named_by_an_id_and_an_object(rt: HostRuntime) -> Result<(), Fail> {
    let alloc = rt.alloc();
    let line = br#"{"style":{"float":"left","z":-1},"id":4294967295,"op":"style"}"#;
    let Command::Edit(Edit::Restyle { id, style }) = command_of(alloc, line)? else {
        return Ok(assert!(rt; false));
    };
    assert_eq!(rt; id, 4294967295);
    assert!(rt; style.floats && style.z == Some(-1));
    Ok(())
}
