//! The rules of the painting order as sentences, each the contract of a function without a body.
ghost use Rattle.std.specs.Prelude.{◌≡◌, ◌<◌, ℕ, map, Some, None, IsTrue, IsFalse};
ghost use Rattle.std.specs.List.{All};
ghost use Rattle.box_tree.specs.declared.edit.Edit.{Edit};
ghost use Rattle.box_tree.specs.Contents.{Contents, has_id, IsValid};
ghost use Rattle.box_tree.specs.Containing.{makes_context};
ghost use Rattle.box_tree.specs.Edited.{is_root, edited};
ghost use Rattle.box_tree.specs.Numbers.{ItemsState, IsNumber, IsNumberedPage, KeepsNumbers};
ghost use Rattle.paint_order.specs.Lists.{Lists, IsInRoom, AreDistinct, StandNowhereElse};
ghost use Rattle.paint_order.specs.Order.{flattened, IsWhole, NestWithin};
ghost use Rattle.stacking.specs.Contexts.{context_of};
ghost use Rattle.stacking.specs.Counting.{AllItemsArePainted, EachItemIsPaintedOnce};
ghost use Rattle.box_tree.specs.Frame.{edited_node, IsFaultless};
ghost use Rattle.stacking.specs.Frame.{is_next_to, KeepsList};
ghost use Rattle.stacking.specs.Lists.{number_of, AreListsOf, IsListedAt, numbered, HasOnlyListsOf, kept_list};
ghost use Rattle.stacking.specs.OnPage.{of_node};
ghost use Rattle.stacking.specs.Painting.{ContextEntry, SubContext, entries, layer};
ghost use Rattle.stacking.specs.Laws.{FlatIsInParts, LinesAreInOrder, LayerIsInParts};

/// A node that is painted as one gives its head, the boxes of the blocks in it, the floats in it, each painted as one, its
/// lines, and the lines of the blocks (CSS 2.2, Appendix E).
pub fn flat_is_in_parts()
    ensures { FlatIsInParts }
{}

/// On the lines of a node lie the content of a replaced one, and else its pieces line by line, an atomic node painted as one.
pub fn lines_are_in_order()
    ensures { LinesAreInOrder }
{}

/// The layer of a stacking context is its head, the members of negative levels, the boxes of the blocks, the floats, the
/// lines, the members of level 0, and those of positive levels; a member that is a stacking context gives its layer.
pub fn layer_is_in_parts()
    ensures { LayerIsInParts }
{}

/// In the layer of the root of every valid page stand just the items of the page, each as often as in the page: whatever is
/// counted, there is as much of it.
pub fn all_items_are_painted()
    ensures { AllItemsArePainted }
{}

/// In the layer of the root of every valid page no item stands twice.
pub fn each_item_is_painted_once()
    ensures { EachItemIsPaintedOnce }
{}

/// An edit of a node leaves the list of each stacking context that is one before and after, and that neither before nor after
/// is the next one above the node, the node itself or a child of it. An edit of the viewport leaves all lists.
pub fn frame_lists()
    ensures lists { (page : Contents) (edit : Edit) (changed id : ℕ) → IsFaultless page edit → edited_node page edit ≡ Some changed → IsTrue (makes_context page id) → IsTrue (makes_context (edited page edit) id) →
        IsFalse (is_next_to page changed id) → IsFalse (is_next_to (edited page edit) changed id) → of_node entries (edited page edit) id ≡ of_node entries page id }
    ensures view_lists { (page : Contents) (edit : Edit) (id : ℕ) → edited_node page edit ≡ None → of_node entries (edited page edit) id ≡ of_node entries page id }
{}

/// A stacking context of the page after an edit of a node that was none before is next to the node, which is then there. An
/// edit of the viewport leaves all stacking contexts.
pub fn frame_contexts()
    ensures new_there { (page : Contents) (edit : Edit) (changed id : ℕ) → IsFaultless page edit → edited_node page edit ≡ Some changed → IsFalse (makes_context page id) → IsTrue (makes_context (edited page edit) id) → IsTrue (has_id (edited page edit) changed) }
    ensures new_next { (page : Contents) (edit : Edit) (changed id : ℕ) → IsFaultless page edit → edited_node page edit ≡ Some changed → IsFalse (makes_context page id) → IsTrue (makes_context (edited page edit) id) → IsTrue (is_next_to (edited page edit) changed id) }
    ensures view_contexts { (page : Contents) (edit : Edit) (id : ℕ) → edited_node page edit ≡ None → makes_context (edited page edit) id ≡ makes_context page id }
{}

/// With the list of each real stacking context of a valid page in a table, lists nest at most 256 deep.
pub fn lists_nest()
    ensures { (page : Contents) (items : ItemsState) (lists : Lists) → IsValid page → AreListsOf lists page items → NestWithin 256 lists }
{}

/// With the list of each real stacking context of a valid page in a table, the flattened list of one has the numbers of the
/// items of its layer.
pub fn lists_flatten_to_the_layer()
    ensures { (page : Contents) (items : ItemsState) (lists : Lists) (id : ℕ) → IsValid page → AreListsOf lists page items → IsTrue (makes_context page id) → flattened 256 lists id ≡ map (number_of items) (of_node layer page id) }
{}

/// In the lists of the real stacking contexts of a valid page no entry stands twice: not in two lists, and not at two places
/// of one.
pub fn each_entry_stands_once()
    ensures in_one_list { (page : Contents) (entry : ContextEntry) (context other j k : ℕ) → IsValid page → IsListedAt page entry context j → IsListedAt page entry other k → context ≡ other }
    ensures at_one_place { (page : Contents) (entry : ContextEntry) (context other j k : ℕ) → IsValid page → IsListedAt page entry context j → IsListedAt page entry other k → j ≡ k }
{}

/// Each real stacking context of a valid page but the root stands in the list of the nearest one above it; and what stands as
/// a stacking context in a list is one of the page, and has that of the list as the nearest above it (CSS 2.2, 9.9.1).
pub fn contexts_stand_in_lists()
    ensures all_stand { (page : Contents) (id : ℕ) → IsValid page → IsTrue (makes_context page id) → IsFalse (is_root page id) → (k : ℕ) × IsListedAt page (SubContext id) (context_of page id) k }
    ensures all_are_real { (page : Contents) (id context k : ℕ) → IsValid page → IsListedAt page (SubContext id) context k → IsTrue (makes_context page id) }
    ensures all_are_nearest { (page : Contents) (id context k : ℕ) → IsValid page → IsListedAt page (SubContext id) context k → context_of page id ≡ context }
{}

/// With the list of each real stacking context of a valid page in a table, each list but that of the root stands in a list.
pub fn lists_are_whole()
    ensures { (page : Contents) (items : ItemsState) (lists : Lists) (root : ℕ) → IsValid page → AreListsOf lists page items → IsTrue (is_root page root) → IsWhole lists root }
{}

/// What a forest of lists asks of a list that is put holds of the list of a real stacking context, where the page is valid and
/// its items are numbered: no entry comes twice, none stands under another number, if the table has lists of the page alone,
/// items have numbers below a limit that all numbers of the page are below, and stacking contexts ids below the next id.
pub fn lists_may_be_put()
    ensures distinct { (page : Contents) (items : ItemsState) (context : ℕ) → IsValid page → IsNumberedPage page items → IsTrue (makes_context page context) → AreDistinct (kept_list items page context) }
    ensures nowhere_else { (page : Contents) (items : ItemsState) (lists : Lists) (context : ℕ) → IsValid page → IsNumberedPage page items → IsTrue (makes_context page context) → HasOnlyListsOf lists page items →
        StandNowhereElse lists context (kept_list items page context) }
    ensures in_room { (page : Contents) (items : ItemsState) (limit context : ℕ) → IsValid page → IsNumberedPage page items → ((number : ℕ) → IsNumber items number → number < limit) → IsTrue (makes_context page context) →
        All (IsInRoom limit page.next) (kept_list items page context) }
{}

/// A list that an edit leaves is kept with the numbers that it had, where the items that stay keep theirs.
pub fn lists_keep_numbers()
    ensures { (page after : Contents) (items items' : ItemsState) (id : ℕ) → IsValid page → IsValid after → IsNumberedPage page items → KeepsNumbers items items' after → IsTrue (makes_context page id) → KeepsList page after id →
        kept_list items' after id ≡ kept_list items page id }
{}
