use crate::edit::Edit;
use crate::form::Form;
use crate::items::{Earlier, Items, Spare};
use crate::node::{Boxes, IdList, Node};
use crate::page::Page;
use crate::sums::Sums;
use crate::tree::Tree;
use crate::viewport::Viewport;
use computed_style::Style;
use fractions::Spot;
use std::marker::Model;
use std::snapshot::Snapshot;

/// How a node is laid out.
#[derive(Drop)]
pub(crate) struct Layout {
    pub(crate) anchor: Spot,
    pub(crate) boxes: Boxes,
    /// How far the node is scrolled.
    pub(crate) scroll: Spot,
    /// The greatest scroll.
    pub(crate) max: Spot,
}

/// What a node gets in place of what it has.
#[derive(Drop)]
pub(crate) enum Change {
    Layout(Layout),
    Style(Style),
    Form(Option<Form>),
    /// How far it is scrolled.
    Scroll(Spot),
}

/// What a page is beside its nodes.
#[derive(Clone, Copy)]
pub(crate) struct Frame {
    /// How many boxes and vertices the nodes have.
    pub(crate) sums: Sums,
    pub(crate) root: Option<u32>,
    pub(crate) viewport: Viewport,
    /// The id of the next node.
    pub(crate) next: u32,
}

/// Where a moved node goes.
#[derive(Clone, Copy)]
pub(crate) struct Relocation {
    pub(crate) id: u32,
    /// The parent before the move.
    pub(crate) from: u32,
    /// The parent after it.
    pub(crate) parent: u32,
    /// The depth of the node before the move.
    pub(crate) old_depth: u32,
    /// The depth of the node after it.
    pub(crate) depth: u32,
}

/// What carrying out an edit needs, with all its memory.
#[derive(Drop)]
pub(crate) enum Plan {
    /// The new node, its place among the children of its parent, and room for twice as many of them where one more might
    /// find none.
    AddNode {
        node: Node,
        place: u32,
        spare: Option<Vec<u32>>,
    },
    /// The parent of the node that goes, the children that the parent then has, the ids of all nodes that go, and room for
    /// them.
    RemoveNodes {
        parent: u32,
        siblings: IdList,
        ids: IdList,
        gone: Vec<Node>,
    },
    /// Where the node goes, the children that its old parent and then its new one have, and the ids of all nodes that go
    /// with it.
    MoveNodes {
        place: Relocation,
        siblings: IdList,
        children: IdList,
        ids: IdList,
    },
    /// The node and what it gets.
    ChangeNode {
        id: u32,
        change: Change,
    },
    /// The sides of the viewport and its greatest scroll.
    ResizeViewport {
        w: i64,
        h: i64,
        max: Spot,
    },
    /// Where the viewport is scrolled to.
    ScrollViewport {
        to: Spot,
    },
}

/// What carrying out an edit took out of the nodes of the page or replaced there, by which it is taken back.
#[derive(Drop)]
pub(crate) enum Taken {
    /// The node that came, its parent, and its place among the children.
    Added {
        id: u32,
        parent: u32,
        place: u32,
    },
    /// The parent of the node that went, the children that the parent had, and all nodes that went.
    Removed {
        parent: u32,
        siblings: IdList,
        nodes: Vec<Node>,
    },
    /// The way back of the moved node, the children that the new parent had and then those of the old one, and the ids of
    /// all nodes that went with it.
    Moved {
        place: Relocation,
        siblings: IdList,
        children: IdList,
        ids: IdList,
    },
    /// The node and what it had.
    Changed {
        id: u32,
        change: Change,
    },
    /// No node was touched.
    Untouched,
}

/// An edit that was tested, with all the memory that carrying it out takes.
#[derive(Drop)]
pub struct Prepared {
    pub(crate) plan: Plan,
    pub(crate) spare: Spare,
    pub(crate) edit: Snapshot<Edit>,
    pub(crate) page: Snapshot<Page>,
}

impl Model for Prepared {
    ghost use Rattle.std.specs.Coded.{Coded, codes};
    ghost use Rattle.box_tree.specs.Forest.{Label};
    ghost use Rattle.box_tree.specs.ForestCode.{forest_code};
    ghost use Rattle.box_tree.specs.Planned.{PreparedState, IsPlanned};

    ghost Value = { PreparedState };

    ghost coded = { let label : Coded Label = Prim.hlevel codes in Prim.hlevel (codes, forest_code label) };

    ghost view = { λ p. record { edit = p.edit.value; page = p.page.value } };

    ghost use Rattle.box_tree.specs.PageState.{tree_part};
    ghost use Rattle.box_tree.specs.Touched.{CanRenumber};

    ghost invariant = { λ p. IsPlanned p.plan p.edit.value (tree_part p.page.value) × CanRenumber p.plan p.page.value.contents p.page.value.items p.page.value.item_room p.spare };
}

/// An edit that was carried out and not yet settled.
#[derive(Drop)]
pub struct Undo {
    pub(crate) taken: Taken,
    pub(crate) frame: Frame,
    pub(crate) earlier: Vec<Earlier>,
    pub(crate) edit: Snapshot<Edit>,
    pub(crate) before: Snapshot<Tree>,
    pub(crate) after: Snapshot<Tree>,
    pub(crate) items_before: Snapshot<Items>,
    pub(crate) items_after: Snapshot<Items>,
}

impl Model for Undo {
    ghost use Rattle.std.specs.Coded.{Coded, codes};
    ghost use Rattle.box_tree.specs.Forest.{Label};
    ghost use Rattle.box_tree.specs.ForestCode.{forest_code};
    ghost use Rattle.box_tree.specs.Planned.{UndoState};
    ghost use Rattle.box_tree.specs.Undone.{IsUndo};

    ghost Value = { UndoState };

    ghost coded = { let label : Coded Label = Prim.hlevel codes in Prim.hlevel (codes, forest_code label) };

    ghost view = { λ u. record { edit = u.edit.value; before = u.before.value.contents; after = u.after.value.contents; items_before = u.items_before.value.items; items_after = u.items_after.value.items; room = u.after.value.room } };

    ghost use Rattle.box_tree.specs.Undone.{IsItemsUndo};

    ghost invariant = { λ u. IsUndo u.taken u.frame u.edit.value u.before.value u.after.value × IsItemsUndo u.earlier.items u.before.value.contents u.items_before.value.items u.items_after.value.items };
}
