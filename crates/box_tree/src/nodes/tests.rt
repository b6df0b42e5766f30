ghost use Rattle.std.specs.Prelude.{◌≡◌};

use super::*;
use crate::kind::Kind;
use crate::node::{Boxes, IdList, ORIGIN};
use computed_style::Style;
use smallvec::SmallVec;
use std::test::Fail;

fn node_of(alloc: Global, id: u32) -> Node
    ensures { result.id ≡ id }
{
    Node {
        id,
        kind: Kind::Block,
        parent: 0,
        children: IdList::new(alloc),
        depth: 1,
        style: Style::new(alloc),
        anchor: ORIGIN,
        boxes: Boxes(SmallVec::new(alloc)),
        form: None,
        scroll: ORIGIN,
        max: ORIGIN,
    }
}

// Takes the node of an id out where it is there, and else puts one.
fn take_or_put(alloc: Global, nodes: &mut Nodes, id: u32) -> Result<(), AllocError> {
    nodes.reserve(id)?;
    if nodes.find(id).is_some() {
        let _ = nodes.take(id);
    } else {
        nodes.put(node_of(alloc, id));
    }
    Ok(())
}

// The ids below 9 that are there.
fn ids_in(alloc: Global, nodes: &Nodes) -> Result<Vec<u32>, AllocError> {
    (0..9).filter(|id| nodes.find(*id).is_some()).collect(alloc)
}

#[test]
fn a_slot_is_used_again_by_another_id(rt: HostRuntime) -> Result<(), Fail> {
    let alloc = rt.alloc();
    let mut nodes = Nodes::new(alloc);
    for (id, expected) in [
        (1, [1].as_slice()),
        (7, [1, 7].as_slice()),
        (1, [7].as_slice()),
        (3, [3, 7].as_slice()),
        (1, [1, 3, 7].as_slice()),
        (7, [1, 3].as_slice()),
        (7, [1, 3, 7].as_slice()),
    ] {
        take_or_put(alloc, &mut nodes, id)?;
        let ids = ids_in(alloc, &nodes)?;
        assert_eq!(rt; ids.as_slice(), expected);
        assert_eq!(rt; nodes.len(), expected.len());
    }
    assert_eq!(rt; slot_at(&nodes.places, 3), Some(0));
    Ok(())
}
