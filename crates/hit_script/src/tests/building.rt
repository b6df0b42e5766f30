// Lines of scripts that are made by the dozen, and the replies to them.
use std::test::Fail;

// A value so often, with commas between.
fn push_list(script: &mut Vec<u8>, value: &[u8], count: usize) -> Result<(), Fail> {
    for place in 0..count {
        let separator = if place == 0 {
            b"".as_slice()
        } else {
            b",".as_slice()
        };
        script.extend_from_slice(separator)?;
        script.extend_from_slice(value)?;
    }
    Ok(())
}

// An add of a node of a kind with so many boxes, as the first child.
pub(super) fn push_add(
    script: &mut Vec<u8>,
    parent: u32,
    kind: &str,
    boxes: usize,
) -> Result<(), Fail> {
    let alloc = *script.allocator();
    let start = format!(in alloc;
        "{{\"op\":\"add\",\"parent\":{parent},\"at\":0,\"kind\":\"{kind}\",\"boxes\":["
    )?;
    script.extend_from_slice(start.as_bytes())?;
    push_list(script, b"[0,0,0,0,0]", boxes)?;
    script.extend_from_slice(b"],\"style\":{}}\n")?;
    Ok(())
}

// A place of a node with so many boxes.
pub(super) fn push_place(script: &mut Vec<u8>, id: u32, boxes: usize) -> Result<(), Fail> {
    let alloc = *script.allocator();
    let start = format!(in alloc; "{{\"op\":\"place\",\"id\":{id},\"anchor\":[0,0],\"boxes\":[")?;
    script.extend_from_slice(start.as_bytes())?;
    push_list(script, b"[0,0,0,0,0]", boxes)?;
    script.extend_from_slice(b"],\"max\":[0,0]}\n")?;
    Ok(())
}

// A move of a node to the place of the first child.
pub(super) fn push_move(script: &mut Vec<u8>, id: u32, parent: u32) -> Result<(), Fail> {
    let alloc = *script.allocator();
    let line = format!(in alloc; "{{\"op\":\"move\",\"id\":{id},\"parent\":{parent},\"at\":0}}\n")?;
    script.extend_from_slice(line.as_bytes())?;
    Ok(())
}

// A line so often.
pub(super) fn push_often(lines: &mut Vec<u8>, line: &[u8], count: usize) -> Result<(), Fail> {
    for _ in 0..count {
        lines.extend_from_slice(line)?;
    }
    Ok(())
}

// The replies to adds that give the ids from the first on, below the last.
pub(super) fn push_nodes(replies: &mut Vec<u8>, first: u32, last: u32) -> Result<(), Fail> {
    let alloc = *replies.allocator();
    for id in first..last {
        let line = format!(in alloc; "node {id}\n")?;
        replies.extend_from_slice(line.as_bytes())?;
    }
    Ok(())
}
