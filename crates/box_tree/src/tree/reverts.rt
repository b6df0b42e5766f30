// Taking an edit back, and its answer.
ghost use Rattle.std.specs.Prelude.{◌≡◌, ◌<◌, ℕ, length};
ghost use Rattle.box_tree.specs.Kept.{node_with};
ghost use Rattle.box_tree.specs.Nodes.{HasSameRoom};
ghost use Rattle.box_tree.specs.Taken.{back_at, count_back, CanGoBack, answer_by};

use super::adds::take_added;
use super::changes::change_node;
use super::moves::exchange_places;
use super::removes::put_removed;
use crate::edit::Done;
use crate::nodes::Nodes;
use crate::plan::Taken;

// Exchanges once more what an edit exchanged.
pub(super) fn put_back(nodes: &mut Nodes, taken: Taken)
    requires { CanGoBack taken (node_with nodes.old.nodes) (length nodes.old.nodes) nodes.old.room (λ k. k < nodes.old.ids) }
    ensures looked_up { (k : ℕ) → node_with nodes.new.nodes k ≡ back_at taken k (node_with nodes.old.nodes k) }
    ensures count { length nodes.new.nodes ≡ count_back taken (length nodes.old.nodes) }
    ensures same_room { HasSameRoom nodes.old nodes.new }
{
    match taken {
        Taken::Added { id, parent, place } => take_added(nodes, id, parent, place),
        Taken::Removed {
            parent,
            siblings,
            nodes: gone,
        } => put_removed(nodes, parent, siblings, gone),
        Taken::Moved {
            place,
            siblings,
            children,
            ids,
        } => {
            exchange_places(nodes, place, siblings, children, &ids);
        }
        Taken::Changed { id, change } => {
            change_node(nodes, id, change);
        }
        Taken::Untouched => {}
    }
}

// The answer to an edit, by what it took.
pub(crate) fn answer_by(taken: &Taken) -> Done
    ensures { result ≡ answer_by taken.now }
{
    match taken {
        Taken::Added { id, .. } => Done::Node { id: *id },
        Taken::Removed { .. } | Taken::Moved { .. } | Taken::Changed { .. } | Taken::Untouched => {
            Done::Done
        }
    }
}
