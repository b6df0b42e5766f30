ghost use Rattle.std.specs.Prelude.{◌≡◌, ◌≢◌, ◌≤◌, ℕ, length, List, Option, Some, None, option_map, IfOk, IfErr, IfSome, OnOk, OnErr};
ghost use Rattle.box_tree.specs.Contents.{Contents, IsWithin, has_id};
ghost use Rattle.box_tree.specs.Edited.{IsInRange, edited, answer_of};
ghost use Rattle.box_tree.specs.Items.{item_count};
ghost use Rattle.point_query.specs.Chain.{chain_of};
ghost use Rattle.point_query.specs.Elements.{elements_from_point, element_from_point};
ghost use Rattle.tree_edits.specs.Edits.{first_fault};
ghost use Rattle.hit_script.specs.Log.{Entry, EditEntry, HitEntry, TopEntry, ChainEntry, HasEntry, Logs};
ghost use Rattle.hit_script.specs.Room.{HasRoom};

use box_tree::{Done, Edit, EditFault};
use fractions::{Ledger, Steps};
use tree_edits::Engine;

/// What keeps the page, and is asked for each edit and each query.
///
/// Whether the page is known never changes. Where the log is known after a call it was known before, and the call has put
/// its one entry behind it. A query takes no memory: it writes into the room that it is lent, which has a place for each
/// item of the page and for 256 members more.
pub trait Desk {
    /// The page, where it is known.
    ghost page: { Self → Option Contents };

    /// What was asked and answered so far, where it is known.
    ghost log: { Self → Option (List Entry) };

    /// How many items its page has.
    ghost places: { Self → ℕ };

    /// How many items its page has, at most 327,680.
    fn places(&self) -> u32
        ensures is { result ≡ places self.now }
        ensures of_page { IfSome (page self.now) (λ was. result ≡ item_count was.tree) };

    /// Changes the page, or refuses the edit by its first fault and changes nothing.
    fn edit<L: Ledger>(&mut self, edit: &Edit, steps: &mut Steps<L>) -> Result<Done, EditFault>
        requires { IsInRange edit.now }
        ensures accepted { OnOk result (IfSome (page self.old) (λ was. first_fault was edit.now ≡ None)) }
        ensures answer { IfOk result (λ done. IfSome (page self.old) (λ was. done ≡ answer_of was edit.now)) }
        ensures edited { OnOk result (page self.new ≡ option_map (λ was. edited was edit.now) (page self.old)) }
        ensures refused { IfErr result (λ why. why ≢ EditFault.OutOfMemory
            → IfSome (page self.old) (λ was. first_fault was edit.now ≡ Some why)) }
        ensures same { OnErr result (page self.new ≡ page self.old) }
        ensures same_places { OnErr result (places self.new ≡ places self.old) }
        ensures logged { Logs (log self.old) (log self.new) (EditEntry result) };

    /// The elements under a point, topmost first. The coordinates are in units of 1/64 px.
    fn hit<'a, L: Ledger>(
        &mut self,
        room: &'a mut [u32],
        x: i64,
        y: i64,
        steps: &mut Steps<L>,
    ) -> &'a [u32]
        requires x { IsWithin 26 x }
        requires y { IsWithin 26 y }
        requires room { HasRoom (places self.old) room.old }
        ensures elements { IfSome (page self.old) (λ was. result.now ≡ elements_from_point was x y) }
        ensures same { page self.new ≡ page self.old }
        ensures same_places { places self.new ≡ places self.old }
        ensures logged { Logs (log self.old) (log self.new) (HitEntry x y result.now) };

    /// The topmost element under a point, or none. The coordinates are in units of 1/64 px.
    fn top<L: Ledger>(
        &mut self,
        room: &mut [u32],
        x: i64,
        y: i64,
        steps: &mut Steps<L>,
    ) -> Option<u32>
        requires x { IsWithin 26 x }
        requires y { IsWithin 26 y }
        requires room { HasRoom (places self.old) room.old }
        ensures element { IfSome (page self.old) (λ was. result ≡ element_from_point was x y) }
        ensures same { page self.new ≡ page self.old }
        ensures same_places { places self.new ≡ places self.old }
        ensures logged { Logs (log self.old) (log self.new) (TopEntry x y result) };

    /// The ancestors of an element and the element itself, root first: at most 256, and none of an id that isn't in the page.
    fn chain<'a, L: Ledger>(
        &mut self,
        room: &'a mut [u32],
        id: u32,
        steps: &mut Steps<L>,
    ) -> &'a [u32]
        requires { HasRoom (places self.old) room.old }
        ensures chain { IfSome (page self.old) (λ was. result.now ≡ chain_of was id) }
        ensures short { length result.now ≤ 256 }
        ensures same { page self.new ≡ page self.old }
        ensures same_places { places self.new ≡ places self.old }
        ensures logged { Logs (log self.old) (log self.new) (ChainEntry id result.now) };

    /// Whether the id is in the page.
    fn has(&mut self, id: u32) -> bool
        ensures is { IfSome (page self.old) (λ was. result ≡ has_id was id) }
        ensures same { page self.new ≡ page self.old }
        ensures same_places { places self.new ≡ places self.old }
        ensures logged { Logs (log self.old) (log self.new) (HasEntry id result) };
}

/// The engine, which tells its page and no log.
impl Desk for Engine {
    ghost page = { λ engine. Some engine.contents };

    ghost log = { λ _. None };

    ghost places = { λ engine. item_count engine.contents.tree };

    fn places(&self) -> u32 {
        self.page().item_count()
    }

    fn edit<L: Ledger>(&mut self, edit: &Edit, steps: &mut Steps<L>) -> Result<Done, EditFault> {
        self.edit(edit, steps)
    }

    fn hit<'a, L: Ledger>(
        &mut self,
        room: &'a mut [u32],
        x: i64,
        y: i64,
        steps: &mut Steps<L>,
    ) -> &'a [u32] {
        point_query::hit(self, room, x, y, steps)
    }

    fn top<L: Ledger>(
        &mut self,
        room: &mut [u32],
        x: i64,
        y: i64,
        steps: &mut Steps<L>,
    ) -> Option<u32> {
        point_query::top(self, room, x, y, steps)
    }

    fn chain<'a, L: Ledger>(
        &mut self,
        room: &'a mut [u32],
        id: u32,
        steps: &mut Steps<L>,
    ) -> &'a [u32] {
        if !self.page().has(id) {
            return &room[..0];
        }
        point_query::chain(self, room, id, steps)
    }

    fn has(&mut self, id: u32) -> bool {
        self.page().has(id)
    }
}
