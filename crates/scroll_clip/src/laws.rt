//! Laws of the definitions, each the contract of a function without a body.
ghost use Rattle.std.specs.Prelude.{◌≡◌, ℕ, ℤ};
ghost use Rattle.box_tree.specs.declared.edit.Edit.{Edit};
ghost use Rattle.box_tree.specs.Contents.{Contents};
ghost use Rattle.box_tree.specs.Edited.{edited};
ghost use Rattle.box_tree.specs.Frame.{IsFaultless, IsOutside};
ghost use Rattle.scroll_clip.specs.Clips.{inside_clips};

/// An edit of a node leaves the clips of each node outside of it, which is neither the edited node nor below it, as they were
/// at every point of the viewport.
pub fn frame_clips()
    ensures clips { (page : Contents) (edit : Edit) (id : ℕ) (x y : ℤ) → IsFaultless page edit → IsOutside page edit id → inside_clips (edited page edit) id x y ≡ inside_clips page id x y }
{}
