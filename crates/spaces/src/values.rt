// The values that nodes inherit.
ghost use Rattle.std.specs.Prelude.{◌≡◌};
ghost use Rattle.box_tree.specs.Contents.{IsValid};
ghost use Rattle.box_tree.specs.Edited.{ancestors_below};
ghost use Rattle.spaces.specs.Values.{values_along};

use box_tree::Page;
use computed_style::{Inherited, compute};
use fractions::{Ledger, Steps};

// The values of an element and its ancestors, the initial ones above the root.
pub(crate) fn values_from<L: Ledger>(page: &Page, id: u32, steps: &mut Steps<L>) -> Inherited
    requires { IsValid page.now.contents }
    ensures { result ≡ values_along (ancestors_below page.now.contents id) }
{
    if !page.has(id) {
        return Inherited::initial();
    }
    let node = page.node(id, steps);
    let above = values_from(page, node.parent, steps);
    compute(&above, &node.style)
}
