// The events of a pointer that goes over a page.
use super::assert_replies;
use std::test::Fail;

/// A pointer that goes into a nested block, over to another that then goes from the page, and out of the viewport.
const NESTED: &[u8] =
    br#"{"op":"add","parent":0,"at":0,"kind":"block","boxes":[[0,0,0,100,100]],"style":{}}
{"op":"add","parent":1,"at":0,"kind":"block","boxes":[[0,0,0,50,50]],"style":{}}
{"op":"add","parent":2,"at":0,"kind":"block","boxes":[[0,0,0,20,20]],"style":{}}
{"op":"add","parent":1,"at":1,"kind":"block","boxes":[[0,50,0,50,50]],"style":{}}
{"op":"refresh"}
{"op":"point","x":10,"y":10}
{"op":"point","x":60,"y":10}
{"op":"remove","id":4}
{"op":"refresh"}
{"op":"refresh"}
{"op":"point","x":60,"y":10}
{"op":"point","x":-1,"y":0}
"#;

const NESTED_REPLIES: &[u8] =
    b"node 1\nnode 2\nnode 3\nnode 4\nevents\nevents over=3:- enter=1:- enter=2:- enter=3:- move=3:-\nevents out=3:4 leave=3:4 leave=2:4 over=4:3 enter=4:3 move=4:-\nok\nevents over=1:-\nevents\nevents move=1:-\nevents out=1:- leave=1:-\n";

/// An edit under a pointer that stays sends nothing until it is asked: a child comes under it, is moved with the pointer
/// over it, and the page goes. On a page without a root the pointer keeps its spot.
const STAYING: &[u8] = br#"{"op":"point","x":5,"y":5}
{"op":"add","parent":0,"at":0,"kind":"block","boxes":[[0,0,0,100,100]],"style":{}}
{"op":"add","parent":1,"at":0,"kind":"block","boxes":[[0,0,0,10,10]],"style":{}}
{"op":"refresh"}
{"op":"add","parent":1,"at":0,"kind":"block","boxes":[[0,50,0,10,10]],"style":{}}
{"op":"move","id":2,"parent":3,"at":0}
{"op":"refresh"}
{"op":"point","x":56,"y":5}
{"op":"remove","id":1}
{"op":"refresh"}
{"op":"point","x":5}
"#;

const STAYING_REPLIES: &[u8] =
    b"events\nnode 1\nnode 2\nevents over=2:- enter=1:- enter=2:-\nnode 3\nok\nevents out=2:1 leave=2:1 over=1:2\nevents out=1:2 over=2:1 enter=3:1 enter=2:1 move=2:-\nok\nevents\nerr 3 command\n";

// The blocks of a list, 200 of them, each with a text and an icon: a circle of radius 10 user units in a viewBox of 24.
fn push_list(script: &mut Vec<u8>) -> Result<(), Fail> {
    let alloc = *script.allocator();
    for at in 0u32..200 {
        let block = at.wrapping_mul(4).wrapping_add(4);
        let svg = block.wrapping_add(2);
        let shape = block.wrapping_add(3);
        let top = at.wrapping_mul(5120);
        let lines = format!(in alloc;
            "{{\"op\":\"add\",\"parent\":3,\"at\":{at},\"kind\":\"block\",\"boxes\":[[0,0,{top},81920,4608]],\"style\":{{}}}}\n{{\"op\":\"add\",\"parent\":{block},\"at\":0,\"kind\":\"text\",\"boxes\":[[0,6400,640,12800,1280]],\"style\":{{}}}}\n{{\"op\":\"add\",\"parent\":{block},\"at\":1,\"kind\":\"svg\",\"boxes\":[[0,640,640,1536,1536]],\"style\":{{}}}}\n"
        )?;
        script.extend_from_slice(lines.as_bytes())?;
        let lines = format!(in alloc;
            "{{\"op\":\"add\",\"parent\":{svg},\"at\":0,\"kind\":\"shape\",\"boxes\":[],\"style\":{{}}}}\n{{\"op\":\"shape\",\"id\":{svg},\"shape\":[\"view\",0,0,98304,98304,\"xMidYMid\",\"meet\"]}}\n{{\"op\":\"shape\",\"id\":{shape},\"shape\":[\"circle\",49152,49152,40960]}}\n"
        )?;
        script.extend_from_slice(lines.as_bytes())?;
    }
    Ok(())
}

fn push_list_replies(replies: &mut Vec<u8>) -> Result<(), Fail> {
    let alloc = *replies.allocator();
    for at in 0u32..200 {
        let block = at.wrapping_mul(4).wrapping_add(4);
        let text = block.wrapping_add(1);
        let svg = block.wrapping_add(2);
        let shape = block.wrapping_add(3);
        let lines = format!(in alloc;
            "node {block}\nnode {text}\nnode {svg}\nnode {shape}\nok\nok\n"
        )?;
        replies.extend_from_slice(lines.as_bytes())?;
    }
    Ok(())
}

/// A page of 1,280 by 720 px with a header that stays, and below it a list that scrolls.
const LIST_PAGE: &[u8] =
    br#"{"op":"add","parent":0,"at":0,"kind":"block","boxes":[[0,0,0,81920,46080]],"style":{}}
{"op":"add","parent":1,"at":0,"kind":"block","boxes":[[0,0,0,81920,3840]],"style":{"position":"fixed","z":100}}
{"op":"add","parent":1,"at":1,"kind":"block","boxes":[[0,0,3840,81920,42240]],"style":{"overflow":"auto"}}
{"op":"place","id":3,"anchor":[0,0],"boxes":[[0,0,3840,81920,42240]],"max":[0,981760]}
"#;

/// The icon of the block of number 100, now at the top of the list; beside it; and the header, under which the block before
/// is clipped.
const OVER_THE_LIST: &[u8] = br#"{"op":"scroll","id":3,"x":0,"y":512000}
{"op":"hit","x":1408,"y":5248}
{"op":"hit","x":7000,"y":5248}
{"op":"hit","x":7000,"y":3000}
{"op":"point","x":1408,"y":5248}
{"op":"point","x":7000,"y":3000}
"#;

const OVER_THE_LIST_REPLIES: &[u8] =
    b"ok\nhit 407 406 404 3 1\nhit 404 3 1\nhit 2 1\nevents over=407:- enter=1:- enter=3:- enter=404:- enter=406:- enter=407:- move=407:-\nevents out=407:2 leave=407:2 leave=406:2 leave=404:2 leave=3:2 over=2:407 enter=2:407 move=2:-\n";

#[test]
fn a_pointer_over_a_list_of_icons(rt: HostRuntime) -> Result<(), Fail> {
    let mut script = Vec::from_slice(rt.alloc(), LIST_PAGE)?;
    let mut replies = Vec::from_slice(rt.alloc(), b"node 1\nnode 2\nnode 3\nok\n")?;
    push_list(&mut script)?;
    push_list_replies(&mut replies)?;
    script.extend_from_slice(OVER_THE_LIST)?;
    replies.extend_from_slice(OVER_THE_LIST_REPLIES)?;
    assert_replies(&rt, rt.alloc(), &script, &replies)
}

#[test]
fn events_are_those_of_successive_targets(rt: HostRuntime) -> Result<(), Fail> {
    assert_replies(&rt, rt.alloc(), NESTED, NESTED_REPLIES)?;
    assert_replies(&rt, rt.alloc(), STAYING, STAYING_REPLIES)
}
