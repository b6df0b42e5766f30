//! What holds of the definitions, each the contract of a function without a body.
ghost use Rattle.std.specs.Prelude.{◌≤◌, ℕ, ℤ, List, [], IsTrue, length, map};
ghost use Rattle.std.specs.List.{Contains};
ghost use Rattle.std.specs.List.Sorted.{IsPermutation};
ghost use Rattle.box_tree.specs.declared.item.Item.{Item};
ghost use Rattle.box_tree.specs.Contents.{Contents, IsValid};
ghost use Rattle.box_tree.specs.Items.{item_count};
ghost use Rattle.box_tree.specs.Numbers.{ItemsState, IsNumber, IsNumberedPage};
ghost use Rattle.paint_order.specs.Order.{is_member};
ghost use Rattle.spatial_index.specs.Contents.{GridState};
ghost use Rattle.stacking.specs.Counting.{items_in};
ghost use Rattle.stacking.specs.Lists.{number_of};
ghost use Rattle.tree_edits.specs.Cells.{IsGridOf};
ghost use Rattle.point_query.specs.Elements.{is_inside, admits};
ghost use Rattle.point_query.specs.Near.{near_items, members_below};
ghost use Rattle.point_query.specs.Topmost.{StandOnce};

/// Each item of a valid page that is admitted at a point inside the viewport is one of the items near the point.
pub fn index_law()
    ensures { (page : Contents) (x y : ℤ) (item : Item) → IsValid page → IsTrue (is_inside page.viewport x y) → Contains (items_in [] page.tree) item → IsTrue (admits page x y item) → Contains (near_items page x y) item }
{}

/// In a grid of a valid page the cells of a point inside the viewport, those of all ten levels together, have the numbers of the
/// items near the point: each once, each the number of an item, and no more than the page has items.
pub fn cell_law()
    ensures near { (page : Contents) (items : ItemsState) (grid : GridState) (x y : ℤ) → IsValid page → IsNumberedPage page items → IsGridOf grid page items → IsTrue (is_inside page.viewport x y) →
        IsPermutation (map (number_of items) (near_items page x y)) (members_below grid x y 10) }
    ensures numbers { (page : Contents) (items : ItemsState) (grid : GridState) (x y : ℤ) (number : ℕ) → IsGridOf grid page items → IsTrue (is_inside page.viewport x y) → IsTrue (is_member number (members_below grid x y 10)) → IsNumber items number }
    ensures once { (page : Contents) (items : ItemsState) (grid : GridState) (x y : ℤ) → IsGridOf grid page items → IsTrue (is_inside page.viewport x y) → StandOnce (members_below grid x y 10) }
    ensures fewer { (page : Contents) (items : ItemsState) (grid : GridState) (x y : ℤ) → IsValid page → IsNumberedPage page items → IsGridOf grid page items → IsTrue (is_inside page.viewport x y) →
        length (members_below grid x y 10) ≤ item_count page.tree }
{}
