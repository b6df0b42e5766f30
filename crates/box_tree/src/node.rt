ghost use Rattle.std.specs.Prelude.{◌≡◌, ◌+◌, ◌<◌, ◌≤◌, [], ℕ, ◌^◌, length, vec_len, vec_capacity, IfOk, IsTrue};
ghost use Rattle.std.specs.List.{insert, remove};
ghost use Rattle.box_tree.specs.Planned.{ids_without};
ghost use Rattle.box_tree.specs.Room.{HasRoom, IsBetweenPowers, IsSpareFor};

use crate::form::Form;
use crate::kind::Kind;
use crate::piece::Piece;
use computed_style::Style;
use fractions::Spot;
use smallvec::SmallVec;
use std::alloc::{AllocError, Global};
use std::marker::Model;

/// The ids of the children of a node in tree order, which clauses see as a list. There is room for the least power of two
/// that is not below their number, so between two powers of two one id more takes no memory.
#[derive(Debug, Drop)]
pub struct IdList {
    ids: Vec<u32>,
}

impl Model for IdList {
    ghost use Rattle.std.specs.Prelude.{List, ℕ, vec_len, vec_capacity};
    ghost use Rattle.box_tree.specs.Room.{HasRoom};

    ghost Value = { List ℕ };

    ghost view = { λ list. list.ids.items };

    ghost invariant = { λ list. HasRoom (vec_len list.ids) (vec_capacity list.ids) };
}

impl IdList {
    // No ids.
    pub(crate) fn new(alloc: Global) -> IdList
        ensures { result ≡ [] }
    {
        IdList {
            ids: Vec::new(alloc),
        }
    }

    // These ids, with room.
    pub(crate) fn from_vec(ids: Vec<u32>) -> Result<IdList, AllocError>
        ensures { IfOk result (λ list. list ≡ ids.items) }
    {
        let mut ids = ids;
        let missing = room_for(ids.len()) - ids.len();
        ids.reserve(missing)?;
        Ok(IdList { ids })
    }

    /// The ids in order.
    pub fn as_slice(&self) -> &[u32]
        ensures { result.now ≡ self.now }
    {
        self.ids.as_slice()
    }

    // How many ids there are.
    pub(crate) fn len(&self) -> usize
        ensures { result ≡ length self.now }
    {
        self.ids.len()
    }

    // The list with one more id at a place.
    pub(crate) fn with(&self, alloc: Global, at: usize, id: u32) -> Result<IdList, AllocError>
        requires { at ≤ length self.now }
        ensures { IfOk result (λ list. list ≡ insert self.now at id) }
    {
        let mut ids = Vec::with_capacity(alloc, room_for(self.ids.len() + 1))?;
        let (before, after) = self.ids.split_at(at);
        ids.extend_from_slice(before)?;
        ids.push(id)?;
        ids.extend_from_slice(after)?;
        IdList::from_vec(ids)
    }

    // The list without one id.
    pub(crate) fn without(&self, alloc: Global, id: u32) -> Result<IdList, AllocError>
        ensures { IfOk result (λ list. list ≡ ids_without id self.now) }
    {
        let ids = self
            .ids
            .iter()
            .copied()
            .filter(|other| *other != id)
            .collect(alloc)?;
        IdList::from_vec(ids)
    }

    // How many ids there are beside one.
    pub(crate) fn count_without(&self, id: u32) -> usize
        ensures { result ≡ length (ids_without id self.now) }
    {
        self.ids
            .iter()
            .copied()
            .filter(|other| *other != id)
            .count()
    }

    // Room for twice as many ids, where one more might find none.
    pub(crate) fn spare(&self, alloc: Global) -> Result<Option<Vec<u32>>, AllocError>
        ensures { IfOk result (λ spare. IsSpareFor (length self.now) spare) }
    {
        let len = self.ids.len();
        if is_between_powers(len) {
            return Ok(None);
        }
        Ok(Some(Vec::with_capacity(alloc, len + len.max(1))?))
    }

    // Puts one more id at a place, in the spare room where it is given. It takes no memory.
    pub(crate) fn insert(&mut self, at: usize, id: u32, spare: Option<Vec<u32>>)
        requires within { at ≤ length self.old }
        requires spare { IsSpareFor (length self.old) spare }
        ensures { self.new ≡ insert self.old at id }
    {
        move_into(&mut self.ids, spare);
        self.ids.insert(at, id).unwrap();
    }

    // Takes the id at a place out. The room stays.
    pub(crate) fn remove(&mut self, at: usize)
        requires { at < length self.old }
        ensures { self.new ≡ remove self.old at }
    {
        self.ids.remove(at);
    }
}

// For how many ids a list of so many has room: the least power of two that is not below.
fn room_for(len: usize) -> usize
    requires { len ≤ 2 ^ 63 }
    ensures least { len ≤ result }
    ensures room { (room : ℕ) → result ≤ room → HasRoom len room }
{
    len.next_power_of_two()
}

// Whether a number is above a power of two and below the next one.
fn is_between_powers(len: usize) -> bool
    requires { len ≤ 2 ^ 63 }
    ensures { IsTrue result → IsBetweenPowers len }
{
    0 < len && len < len.next_power_of_two()
}

// Moves ids into the spare room, where it is given: then there is room for one more.
fn move_into(ids: &mut Vec<u32>, spare: Option<Vec<u32>>)
    requires room { HasRoom (vec_len ids.old) (vec_capacity ids.old) }
    requires spare { IsSpareFor (vec_len ids.old) spare }
    ensures items { ids.new.items ≡ ids.old.items }
    ensures len { vec_len ids.new ≡ vec_len ids.old }
    ensures fits { vec_len ids.new < vec_capacity ids.new }
    ensures room { HasRoom (vec_len ids.new + 1) (vec_capacity ids.new) }
{
    let Some(mut more) = spare else {
        return;
    };
    more.append(ids).unwrap();
    *ids = more;
}

/// The boxes of a node, which clauses see as a list.
#[derive(Drop)]
pub struct Boxes(pub SmallVec<Piece, 1>);

impl Model for Boxes {
    ghost use Rattle.std.specs.Prelude.{List};
    ghost use Rattle.box_tree.specs.declared.piece.Piece.{Piece};

    ghost Value = { List Piece };

    ghost view = { λ list. list.0.items };
}

impl Boxes {
    /// The boxes in order.
    pub fn as_slice(&self) -> &[Piece]
        ensures { result.now ≡ self.now }
    {
        self.0.as_slice()
    }

    // How many boxes there are.
    pub(crate) fn count(&self) -> usize
        ensures { result ≡ length self.now }
    {
        self.0.len()
    }

    // A copy of the boxes.
    pub(crate) fn from_pieces(alloc: Global, pieces: &[Piece]) -> Result<Boxes, AllocError>
        ensures { IfOk result (λ boxes. boxes ≡ pieces.now) }
    {
        Ok(Boxes(SmallVec::from_slice(alloc, pieces)?))
    }
}

// The point 0, 0.
pub(crate) const ORIGIN: Spot = Spot { x: 0, y: 0 };

/// A node of the page as its reader sees it.
#[derive(Drop)]
pub struct Node {
    /// From 1 on; no id is given twice.
    pub id: u32,
    pub kind: Kind,
    /// The id of the parent, 0 for the root.
    pub parent: u32,
    pub children: IdList,
    /// The number of nodes from the root to this one, 1 for the root and at most 256.
    pub depth: u32,
    /// What is declared on it.
    pub style: Style,
    /// Where the layout puts it, added to its space: within 2^26 units.
    pub anchor: Spot,
    pub boxes: Boxes,
    /// None at first.
    pub form: Option<Form>,
    /// How far it is scrolled, each coordinate from 0 to that of `max`.
    pub scroll: Spot,
    /// The greatest scroll, 0 to 2^26 units.
    pub max: Spot,
}
