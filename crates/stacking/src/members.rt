ghost use Rattle.std.specs.Prelude.{◌≡◌, ◌++◌, ◌∷◌, [], map, Some, IsTrue, IfOk, if◌then◌else◌, pos};
ghost use Rattle.std.specs.Option.{option_map, option_copied};
ghost use Rattle.box_tree.specs.Contents.{IsValid, has_id};
ghost use Rattle.box_tree.specs.Kept.{label_of};
ghost use Rattle.box_tree.specs.Used.{is_real_context, stack_level};
ghost use Rattle.stacking.specs.Painting.{context_members, is_member};
ghost use Rattle.stacking.specs.OnPage.{of_node, gathered, member_of, members_of, is_on_side};

use crate::memory::OutOfMemory;
use crate::reading::read;
use crate::roles::{is_member, keeps_members};
use box_tree::{Node, Page, is_real_context, stack_level};
use std::alloc::Global;

/// A member of a stacking context.
#[derive(Clone, Copy)]
pub(crate) struct Member {
    /// Its level, 0 where it is no stacking context itself.
    pub level: i32,
    pub node: u32,
    /// Whether it is a stacking context itself.
    pub is_context: bool,
}

/// The levels of members: those below 0, 0 itself, and those above it.
#[derive(Clone, Copy)]
pub(crate) enum Side {
    Below,
    Zero,
    Above,
}

// The members of a stacking context, level by level.
pub(crate) fn context_members(
    alloc: Global,
    page: &Page,
    id: u32,
) -> Result<Vec<Member>, OutOfMemory>
    requires valid { IsValid page.now.contents }
    requires there { IsTrue (has_id page.now.contents id) }
    ensures { IfOk result (λ members. members.items ≡ map member_of (of_node context_members page.now.contents id)) }
{
    let mut members = Vec::new(alloc);
    push_below(page, id, &mut members)?;
    members.sort_by_key(|member| member.level)?;
    Ok(members)
}

// Appends the members below a node, down to the next stacking contexts.
fn push_below(page: &Page, id: u32, members: &mut Vec<Member>) -> Result<(), OutOfMemory>
    requires valid { IsValid page.now.contents }
    requires there { IsTrue (has_id page.now.contents id) }
    ensures { IfOk result (λ _. members.new.items ≡ members.old.items ++ gathered members_of page.now.contents id) }
{
    let node = read(page, id);
    for child in node.children.as_slice() {
        let inner = read(page, *child);
        push_member(node, inner, members)?;
        if !keeps_members(Some(node), inner) {
            push_below(page, *child, members)?;
        }
    }
    Ok(())
}

// Appends a node where it is a member.
fn push_member(parent: &Node, node: &Node, members: &mut Vec<Member>) -> Result<(), OutOfMemory>
    ensures { IfOk result (λ _. members.new.items ≡ members.old.items ++ (
        let above = Some (label_of parent.now) in
        let n = label_of node.now in
        if is_member above n
        then record { level = if is_real_context above n then stack_level above n else pos 0; node = n.id; is_context = is_real_context above n } ∷ []
        else [])) }
{
    if is_member(Some(parent), node) {
        members.push(as_member(parent, node))?;
    }
    Ok(())
}

// A node as a member.
fn as_member(parent: &Node, node: &Node) -> Member
    ensures level { result.level ≡ (if is_real_context (Some (label_of parent.now)) (label_of node.now) then stack_level (Some (label_of parent.now)) (label_of node.now) else pos 0) }
    ensures node { result.node ≡ node.now.id }
    ensures is_context { result.is_context ≡ is_real_context (Some (label_of parent.now)) (label_of node.now) }
{
    let is_context = is_real_context(Some(parent), node);
    let level = if is_context {
        stack_level(Some(parent), node)
    } else {
        0
    };
    Member {
        level,
        node: node.id,
        is_context,
    }
}

// Whether a member is on one side of level 0.
pub(crate) fn is_on_side(side: Side, member: Member) -> bool
    ensures { result ≡ is_on_side side member.level }
{
    match side {
        Side::Below => member.level < 0,
        Side::Zero => member.level == 0,
        Side::Above => member.level > 0,
    }
}
