// A desk with the same answers to all, for tests of what stands above a desk.
ghost use Rattle.std.specs.Prelude.{◌≡◌, ◌∷◌, [], true, Some, None, Ok};
ghost use Rattle.hit_script.specs.Log.{EditEntry, HitEntry, TopEntry, ChainEntry, HasEntry, Logs};
ghost use Rattle.hit_script.specs.Canned.{canned_entry, canned_log, asked_once_more};
ghost use Rattle.hit_script.specs.Room.{HasRoom};

use crate::desks::Desk;
use box_tree::{Done, Edit, EditFault};
use fractions::{Ledger, Steps};

/// The most calls that a canned desk keeps.
const KEPT: u32 = 64;

/// What a desk was asked.
#[derive(Clone, Copy, Debug, PartialEq, Eq)]
pub enum Asked {
    /// For an edit.
    Edit,
    /// For the elements under a point, in units of 1/64 px.
    Hit { x: i64, y: i64 },
    /// For the topmost element under a point, in units of 1/64 px.
    Top { x: i64, y: i64 },
    /// For the chain of an element.
    Chain { id: u32 },
    /// Whether an element is in the page.
    Has { id: u32 },
}

/// A desk without a page. It accepts every edit, finds one member under every point, and has every element, each of which
/// has no ancestor.
///
/// It keeps what it was asked in its first 64 calls, and tells its log as long as there were no more.
#[derive(Debug, Drop)]
pub struct Canned {
    /// The member that it finds.
    pub member: u32,
    /// How many calls there were; 65 stands for more than 64.
    pub count: u32,
    /// What was asked in the first 64 of them.
    pub asked: [Asked; 64],
}

// One member, in the room for it.
fn alone(room: &mut [u32], member: u32) -> &[u32]
    requires { HasRoom 0 room.old }
    ensures { result.now ≡ member ∷ [] }
{
    room[0] = member;
    &room[..1]
}

impl Canned {
    // Keeps what was asked.
    fn keep(&mut self, asked: Asked)
        ensures kept { self.new ≡ asked_once_more self.old asked }
        ensures logged { Logs (canned_log self.old) (canned_log self.new) (canned_entry self.old.member asked) }
    {
        if self.count < KEPT {
            self.asked[self.count as usize] = asked;
            self.count += 1;
        } else {
            self.count = self.count.max(KEPT + 1);
        }
    }
}

impl Desk for Canned {
    ghost page = { λ _. None };

    ghost log = { canned_log };

    ghost places = { λ _. 0 };

    fn places(&self) -> u32
        ensures none { result ≡ 0 }
    {
        0
    }

    fn edit<L: Ledger>(&mut self, _edit: &Edit, _steps: &mut Steps<L>) -> Result<Done, EditFault>
        ensures done { result ≡ Ok Done.Done }
        ensures kept { self.new ≡ asked_once_more self.old Asked.Edit }
        ensures logged { Logs (canned_log self.old) (canned_log self.new) (EditEntry result) }
        ensures no_step { _steps.new ≡ _steps.old }
    {
        self.keep(Asked::Edit);
        Ok(Done::Done)
    }

    fn hit<'a, L: Ledger>(
        &mut self,
        room: &'a mut [u32],
        x: i64,
        y: i64,
        _steps: &mut Steps<L>,
    ) -> &'a [u32]
        requires room { HasRoom 0 room.old }
        ensures member { result.now ≡ self.old.member ∷ [] }
        ensures kept { self.new ≡ asked_once_more self.old (Asked.Hit x y) }
        ensures logged { Logs (canned_log self.old) (canned_log self.new) (HitEntry x y result.now) }
        ensures no_step { _steps.new ≡ _steps.old }
    {
        self.keep(Asked::Hit { x, y });
        alone(room, self.member)
    }

    fn top<L: Ledger>(
        &mut self,
        _room: &mut [u32],
        x: i64,
        y: i64,
        _steps: &mut Steps<L>,
    ) -> Option<u32>
        ensures member { result ≡ Some self.old.member }
        ensures kept { self.new ≡ asked_once_more self.old (Asked.Top x y) }
        ensures logged { Logs (canned_log self.old) (canned_log self.new) (TopEntry x y result) }
        ensures no_step { _steps.new ≡ _steps.old }
    {
        self.keep(Asked::Top { x, y });
        Some(self.member)
    }

    fn chain<'a, L: Ledger>(
        &mut self,
        room: &'a mut [u32],
        id: u32,
        _steps: &mut Steps<L>,
    ) -> &'a [u32]
        requires { HasRoom 0 room.old }
        ensures alone { result.now ≡ id ∷ [] }
        ensures kept { self.new ≡ asked_once_more self.old (Asked.Chain id) }
        ensures logged { Logs (canned_log self.old) (canned_log self.new) (ChainEntry id result.now) }
        ensures no_step { _steps.new ≡ _steps.old }
    {
        self.keep(Asked::Chain { id });
        alone(room, id)
    }

    fn has(&mut self, id: u32) -> bool
        ensures has { result ≡ true }
        ensures kept { self.new ≡ asked_once_more self.old (Asked.Has id) }
        ensures logged { Logs (canned_log self.old) (canned_log self.new) (HasEntry id result) }
    {
        self.keep(Asked::Has { id });
        true
    }
}
