// The transform of a style and its origin.

use super::{added, assert_row};
use computed_style::{Function, Style};
use std::alloc::Global;
use std::test::Fail;

// The first function of a transform, how many there are, and its origin.
type Transformed = (Option<Function>, usize, Option<(i64, i64)>);

fn transform_and_origin(style: &Style) -> Transformed {
    let functions = style.transform.0.as_slice();
    (functions.first().copied(), functions.len(), style.origin)
}

// What such a style sets, and none where that is no command.
fn transformed(alloc: Global, style: &str) -> Result<Option<Transformed>, Fail> {
    Ok(added(alloc, r#""block""#, style)?.map(|node| transform_and_origin(&node.1)))
}

const FUNCTIONS: &[(&str, Option<Function>)] = &[
    (
        r#"["matrix",-1073741824,1073741824,3,4,-1099511627776,1099511627776,1]"#,
        Some(Function::Matrix {
            a: -1073741824,
            b: 1073741824,
            c: 3,
            d: 4,
            e: -1099511627776,
            f: 1099511627776,
            q: 1,
        }),
    ),
    (
        r#"["matrix",1,2,1073741824,-1073741824,5,6,1073741824]"#,
        Some(Function::Matrix {
            a: 1,
            b: 2,
            c: 1073741824,
            d: -1073741824,
            e: 5,
            f: 6,
            q: 1073741824,
        }),
    ),
    (r#"["matrix",1073741825,0,0,0,0,0,1]"#, None),
    (r#"["matrix",0,-1073741825,0,0,0,0,1]"#, None),
    (r#"["matrix",0,0,1073741825,0,0,0,1]"#, None),
    (r#"["matrix",0,0,0,-1073741825,0,0,1]"#, None),
    (r#"["matrix",0,0,0,0,1099511627777,0,1]"#, None),
    (r#"["matrix",0,0,0,0,0,-1099511627777,1]"#, None),
    (r#"["matrix",0,0,0,0,0,0,0]"#, None),
    (r#"["matrix",0,0,0,0,0,0,1073741825]"#, None),
    (r#"["matrix",0,0,0,0,0,0]"#, None),
    (
        r#"["translate",-67108864,67108864]"#,
        Some(Function::Translate {
            x: -67108864,
            y: 67108864,
        }),
    ),
    (r#"["translate",-67108865,0]"#, None),
    (r#"["translate",0,67108865]"#, None),
    (r#"["translate",0,0,1]"#, None),
    (
        r#"["scale",-1073741824,1073741824,1073741824]"#,
        Some(Function::Scale {
            x: -1073741824,
            y: 1073741824,
            q: 1073741824,
        }),
    ),
    (
        r#"["scale",2,3,1]"#,
        Some(Function::Scale { x: 2, y: 3, q: 1 }),
    ),
    (r#"["scale",1073741825,0,1]"#, None),
    (r#"["scale",0,-1073741825,1]"#, None),
    (r#"["scale",1,1,0]"#, None),
    (r#"["scale",1,1]"#, None),
    (r#"["quarter",0]"#, Some(Function::Quarter { turns: 0 })),
    (r#"["quarter",3]"#, Some(Function::Quarter { turns: 3 })),
    (r#"["quarter",4]"#, None),
    (r#"["quarter",-1]"#, None),
    (r#"["quarter"]"#, None),
    (r#"["rotate",1]"#, None),
    (r#"[]"#, None),
    (r#"1"#, None),
];

#[test]
fn each_function_of_a_transform_has_its_least_and_its_greatest_numbers(
    rt: HostRuntime,
) -> Result<(), Fail> {
    let alloc = rt.alloc();
    for (text, expected) in FUNCTIONS {
        let style = format!(in alloc; "{{\"transform\":[{text}]}}")?;
        let set = transformed(alloc, &style)?;
        let wanted = expected.map(|function| (Some(function), 1, None));
        assert_row(&rt, text, &set, &wanted);
    }
    Ok(())
}

// Four functions of a transform.
const FOUR: &str = r#"["quarter",1],["quarter",1],["quarter",1],["quarter",1]"#;

const TURN: Option<Function> = Some(Function::Quarter { turns: 1 });

const TRANSFORMS: &[(&str, Option<Transformed>)] = &[
    (r#"{"transform":[]}"#, Some((None, 0, None))),
    (r#"{"transform":{}}"#, None),
    (r#"{"transform":[["quarter",1],1]}"#, None),
    (
        r#"{"origin":[-67108864,67108864]}"#,
        Some((None, 0, Some((-67108864, 67108864)))),
    ),
    (
        r#"{"origin":[1,2],"transform":[["quarter",1]]}"#,
        Some((TURN, 1, Some((1, 2)))),
    ),
    (r#"{"origin":[-67108865,0]}"#, None),
    (r#"{"origin":[0,67108865]}"#, None),
    (r#"{"origin":[0]}"#, None),
    (r#"{"origin":[0,0,0]}"#, None),
];

#[test]
fn a_transform_has_at_most_sixteen_functions_and_an_origin(rt: HostRuntime) -> Result<(), Fail> {
    let alloc = rt.alloc();
    for (text, expected) in TRANSFORMS {
        assert_row(&rt, text, &transformed(alloc, text)?, expected);
    }
    let sixteen = format!(in alloc; "{{\"transform\":[{FOUR},{FOUR},{FOUR},{FOUR}]}}")?;
    let found = transformed(alloc, &sixteen)?;
    assert_row(&rt, &sixteen, &found, &Some((TURN, 16, None)));
    let more = format!(in alloc;
        "{{\"transform\":[{FOUR},{FOUR},{FOUR},{FOUR},[\"quarter\",1]]}}"
    )?;
    assert_row(&rt, &more, &transformed(alloc, &more)?, &None);
    Ok(())
}
