ghost use Rattle.std.specs.Prelude.{◌≡◌, IsTrue};
ghost use Rattle.box_tree.specs.Contents.{has_id};
ghost use Rattle.stacking.specs.Contexts.{context_of};

use crate::reading::read;
use box_tree::Page;

/// The nearest real stacking context above a node (CSS 2.2, 9.9.1); 0 for the root, which has none above it.
pub fn context_of(page: &Page, id: u32) -> u32
    requires { IsTrue (has_id page.now.contents id) }
    ensures { result ≡ context_of page.now.contents id }
{
    page.validity();
    let mut above = read(page, id).parent;
    while above != 0 {
        let node = read(page, above);
        if page.makes_context(above) {
            return above;
        }
        above = node.parent;
    }
    0
}
