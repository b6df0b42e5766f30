ghost use Rattle.std.specs.Prelude.{◌≡◌, ◌++◌, ◌∷◌, [], map, IsTrue, IfOk, if◌then◌else◌};
ghost use Rattle.std.specs.List.{filter, flat_map};
ghost use Rattle.box_tree.specs.Contents.{IsValid, has_id};
ghost use Rattle.box_tree.specs.Containing.{makes_context};
ghost use Rattle.box_tree.specs.Numbers.{place_of};
ghost use Rattle.stacking.specs.Painting.{OneItem, SubContext, head, body, flat, entries, context_members, listed_member};
ghost use Rattle.stacking.specs.OnPage.{of_node, member_of, on_side};
ghost use Rattle.stacking.specs.Lists.{number_of, numbered};

use crate::flat::{paint_body, paint_flat};
use crate::items::push_head;
use crate::members::{Member, Side, context_members, is_on_side};
use crate::memory::OutOfMemory;
use crate::reading::numbers_in;
use box_tree::{Item, Page, Part};
use paint_order::Entry;
use std::alloc::Global;

/// The list of a stacking context, from bottom to top in painting order (CSS 2.2, Appendix E): its items, each by its
/// number in the page, and in the place of each member that is a stacking context the id of that one. It takes memory for
/// the answer and the walk.
pub fn lists_of(alloc: Global, page: &Page, context: u32) -> Result<Vec<Entry>, OutOfMemory>
    requires { IsTrue (makes_context page.now.contents context) }
    ensures { IfOk result (λ list. list.items ≡ map (numbered page.now.items) (of_node entries page.now.contents context)) }
{
    page.validity();
    let members = context_members(alloc, page, context)?;
    let mut list = Vec::new(alloc);
    list_head(alloc, page, context, &mut list)?;
    list_members(alloc, page, context, &members, Side::Below, &mut list)?;
    list_body(alloc, page, context, &mut list)?;
    list_members(alloc, page, context, &members, Side::Zero, &mut list)?;
    list_members(alloc, page, context, &members, Side::Above, &mut list)?;
    Ok(list)
}

// Appends the boxes of a stacking context, unless they lie on lines.
fn list_head(alloc: Global, page: &Page, id: u32, list: &mut Vec<Entry>) -> Result<(), OutOfMemory>
    requires valid { IsValid page.now.contents }
    requires there { IsTrue (has_id page.now.contents id) }
    ensures { IfOk result (λ _. list.new.items ≡ list.old.items ++ map (numbered page.now.items) (map OneItem (of_node head page.now.contents id))) }
{
    let mut items = Vec::new(alloc);
    push_head(page, id, &mut items)?;
    push_items(page, &items, list)
}

// Appends what a stacking context paints itself: its blocks, its floats and its lines.
fn list_body(alloc: Global, page: &Page, id: u32, list: &mut Vec<Entry>) -> Result<(), OutOfMemory>
    requires valid { IsValid page.now.contents }
    requires there { IsTrue (has_id page.now.contents id) }
    ensures { IfOk result (λ _. list.new.items ≡ list.old.items ++ map (numbered page.now.items) (map OneItem (of_node body page.now.contents id))) }
{
    let mut items = Vec::new(alloc);
    paint_body(alloc, page, id, &mut items)?;
    push_items(page, &items, list)
}

// Appends the entries of the members of a stacking context on one side of level 0.
fn list_members(
    alloc: Global,
    page: &Page,
    id: u32,
    members: &[Member],
    side: Side,
    list: &mut Vec<Entry>,
) -> Result<(), OutOfMemory>
    requires valid { IsValid page.now.contents }
    requires there { IsTrue (has_id page.now.contents id) }
    requires members { members.now ≡ map member_of (of_node context_members page.now.contents id) }
    ensures { IfOk result (λ _. list.new.items ≡ list.old.items ++ flat_map (λ m. map (numbered page.now.items) (listed_member m)) (filter (on_side side) (of_node context_members page.now.contents id))) }
{
    for member in members {
        if is_on_side(side, *member) {
            list_member(alloc, page, *member, list)?;
        }
    }
    Ok(())
}

// Appends the entries of a member: one where it is a stacking context, else what it gives painted as one.
fn list_member(
    alloc: Global,
    page: &Page,
    member: Member,
    list: &mut Vec<Entry>,
) -> Result<(), OutOfMemory>
    requires valid { IsValid page.now.contents }
    requires there { IsTrue (has_id page.now.contents member.node) }
    ensures { IfOk result (λ _. list.new.items ≡ list.old.items ++ map (numbered page.now.items) (if member.is_context then SubContext member.node ∷ [] else map OneItem (of_node flat page.now.contents member.node))) }
{
    if member.is_context {
        list.push(Entry::Sub { list: member.node })?;
        return Ok(());
    }
    let mut items = Vec::new(alloc);
    paint_flat(alloc, page, member.node, &mut items)?;
    push_items(page, &items, list)
}

// Appends items by their numbers.
fn push_items(page: &Page, items: &[Item], list: &mut Vec<Entry>) -> Result<(), OutOfMemory>
    ensures { IfOk result (λ _. list.new.items ≡ list.old.items ++ map (numbered page.now.items) (map OneItem items.now)) }
{
    for item in items {
        list.push(Entry::Item {
            item: number_of(page, *item),
        })?;
    }
    Ok(())
}

// The number of an item, by its place among those of its node.
fn number_of(page: &Page, item: Item) -> u32
    ensures { result ≡ number_of page.now.items item }
{
    let place = place_of(item.part);
    match numbers_in(page, item.node).get(place) {
        Some(number) => *number,
        None => 0,
    }
}

// The place of a part among those of its node: a picture comes after its box.
fn place_of(part: Part) -> usize
    ensures { result ≡ place_of part }
{
    match part {
        Part::Box { place } => place as usize,
        Part::Content => 1,
        Part::Outline => 0,
    }
}

#[cfg(test)]
mod tests;
