//! Laws of the definitions, each the contract of a function without a body.
ghost use Rattle.std.specs.Prelude.{◌≡◌, All, ℕ, ℤ, List, [], Option, None, IsSome, IfSome, IsSomeAnd, IsTrue};
ghost use Rattle.box_tree.specs.declared.edit.Edit.{Edit};
ghost use Rattle.std.specs.Option.{option_map, option_and_then};
ghost use Rattle.computed_style.specs.Ranges.{IsSide};
ghost use Rattle.box_tree.specs.Contents.{Contents, empty_page, IsValid};
ghost use Rattle.box_tree.specs.Edited.{edited};
ghost use Rattle.box_tree.specs.Frame.{edited_node, IsFaultless, StandsApart, IsOutside};
ghost use Rattle.spaces.specs.declared.table.entry.Entry.{Entry};
ghost use Rattle.spaces.specs.Spaces.{space, local_point};
ghost use Rattle.spaces.specs.Bound.{is_bounded};
ghost use Rattle.spaces.specs.Table.{is_bounded_in, entry_of, entry_under, local_point_under, new_entry, renewed_entry, applied, renewed_node, removed_ids, IsTableOf, IsTableOutside};
ghost use Rattle.spaces.specs.Values.{values};

/// An edit of a node leaves the space and the values of each node outside of it, which is neither the edited node nor
/// below it, as they were; what stands outside before the edit does so after it. An edit of the viewport leaves the values of
/// all nodes.
pub fn frame_spaces()
    ensures space { (page : Contents) (edit : Edit) (id : ℕ) → IsFaultless page edit → IsOutside page edit id → space (edited page edit) id ≡ space page id }
    ensures values { (page : Contents) (edit : Edit) (id : ℕ) → IsFaultless page edit → IsOutside page edit id → values (edited page edit) id ≡ values page id }
    ensures view_values { (page : Contents) (edit : Edit) (id : ℕ) → edited_node page edit ≡ None → values (edited page edit) id ≡ values page id }
    ensures outside { (page : Contents) (edit : Edit) (id : ℕ) → IsFaultless page edit → IsSomeAnd (edited_node page edit) (λ node. StandsApart page node id) → IsOutside page edit id }
{}

/// A table of a page suits `SpaceTable::renew` on the page that an edit leaves, for the node that the edit changes, and for the
/// whole page where it changes the viewport. With the change that this gives applied to it, and the ids taken out that the
/// edit takes out, none of which has a new entry, it is the table of that page. A table without an entry is that of a page with
/// no node.
pub fn frame_table()
    ensures suits { (table : List (Option Entry)) (page : Contents) (edit : Edit) → IsFaultless page edit → IsTableOf table page → IsTableOutside table (edited page edit) (renewed_node page edit) }
    ensures applied { (table new : List (Option Entry)) (page : Contents) (edit : Edit) (change : List (ℕ × Entry)) → IsFaultless page edit → IsTableOf table page →
        ((id : ℕ) → new_entry change id ≡ renewed_entry (edited page edit) (renewed_node page edit) id) → ((id : ℕ) → entry_under new id ≡ applied table change (removed_ids page edit) id) → IsTableOf new (edited page edit) }
    ensures apart { (page : Contents) (edit : Edit) → IsFaultless page edit → (change : List (ℕ × Entry)) → ((id : ℕ) → new_entry change id ≡ renewed_entry (edited page edit) (renewed_node page edit) id) → All (λ id. new_entry change id ≡ None) (removed_ids page edit) }
    ensures empty { (w h : ℤ) → IsTableOf [] (empty_page w h) }
{}

/// Where a page is within the bound on maps and an edit has no fault, the page that the edit leaves is within the bound
/// exactly where the subtree that it makes to be renewed is.
pub fn frame_bound()
    ensures { (page : Contents) (edit : Edit) → IsFaultless page edit → IsTrue (is_bounded page) → IsValid (edited page edit) → is_bounded_in (edited page edit) (renewed_node page edit) ≡ is_bounded (edited page edit) }
{}

/// What a table of a page has of an id is the space of its node, and where it has an entry the values of that node; the
/// width of their stroke is 0 to 2^26 fine units. A point of the viewport in that space is its local point, which only a node
/// with an entry has.
pub fn table_entries()
    ensures space { (page : Contents) (id : ℕ) → option_and_then (λ entry. entry.space) (entry_of page id) ≡ space page id }
    ensures values { (page : Contents) (id : ℕ) → IsSome (entry_of page id) → option_map (λ entry. entry.values) (entry_of page id) ≡ values page id }
    ensures width { (page : Contents) (id : ℕ) → IsValid page → IfSome (entry_of page id) (λ entry. IsSide 26 entry.values.stroke_width) }
    ensures local_point { (table : List (Option Entry)) (page : Contents) (id : ℕ) (x y : ℤ) → IsTableOf table page → local_point_under table id x y ≡ local_point page id x y }
    ensures entered { (table : List (Option Entry)) (id : ℕ) (x y : ℤ) → IsSome (local_point_under table id x y) → IsSome (entry_under table id) }
{}
