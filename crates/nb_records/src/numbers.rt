//! The numbers of objects in a list of which copies share what is the same.
ghost use Rattle.std.specs.Prelude.{◌≡◌, ◌<◌, ◌≤◌, ◌+◌, ◌^◌, ◌==◌, [], ◌∷◌, ◌++◌, Some, length, take, drop, slice_get, slice_index_or, IfOk, OnOk};
ghost use Rattle.nb_records.specs.inner.Blocks.{joined, IsCounted, IsFound};

mod places;

use nv_base::{ObjId, OutOfMemory};
use std::alloc::Global;
use std::marker::Model;
use std::rc::Rc;

// The most numbers of a block.
const BLOCK: usize = 256;

/// A list of the numbers of objects, in order, in blocks that copies share. A clause sees it as the list.
#[derive(Drop)]
pub struct Numbers {
    blocks: Vec<Block>,
}

// Some of the numbers, and how many of the list there are up to its last one.
#[derive(Drop)]
struct Block {
    end: usize,
    numbers: Rc<Vec<ObjId>>,
}

impl Model for Numbers {
    ghost use Rattle.std.specs.Prelude.{◌<◌, ◌^◌, List, length};
    ghost use Rattle.nv_base.specs.declared.object.ObjId.{ObjId};
    ghost use Rattle.nb_records.specs.inner.Blocks.{joined, IsCounted};

    ghost Value = { List ObjId };

    ghost view = { λ s. joined s.blocks.items };

    ghost invariant = { λ s. IsCounted 0 s.blocks.items × (length (joined s.blocks.items) < 2 ^ 63) };
}

impl Numbers {
    /// The empty list. It takes no memory.
    pub fn new(alloc: Global) -> Self
        ensures { result ≡ [] }
    {
        Numbers {
            blocks: Vec::new(alloc),
        }
    }

    /// The list of these numbers. Where memory runs out the answer is `OutOfMemory`.
    pub fn from_slice(alloc: Global, numbers: &[ObjId]) -> Result<Self, OutOfMemory>
        ensures { IfOk result (λ list. list ≡ numbers.now) }
    {
        let mut list = Numbers::with_room(alloc, numbers.len().div_ceil(BLOCK))?;
        let mut at = 0;
        while at < numbers.len() {
            let size = BLOCK.min(numbers.len() - at);
            list.put_copied(alloc, &numbers[at..at + size])?;
            at += size;
        }
        Ok(list)
    }

    /// How many numbers there are.
    pub fn len(&self) -> usize
        ensures count { result ≡ length self.now }
        ensures small { result < 2 ^ 63 }
    {
        end_of(&self.blocks)
    }

    /// Whether there is no number.
    pub fn is_empty(&self) -> bool
        ensures { result ≡ (length self.now == 0) }
    {
        self.len() == 0
    }

    /// Numbers that stand next to each other from a place on, at least one.
    pub fn run(&self, at: usize) -> &[ObjId]
        requires { at < length self.now }
        ensures numbers { result.now ≡ take (length result.now) (drop at self.now) }
        ensures some { 0 < length result.now }
    {
        run(&self.blocks, at)
    }

    /// The number at a place of the list.
    pub fn number_at(&self, at: usize) -> ObjId
        requires { at < length self.now }
        ensures number { slice_get self.now at ≡ Some result }
        ensures indexed { result ≡ slice_index_or self.now at result }
    {
        self.run(at)[0]
    }

    /// The number at a place, where there is one.
    pub fn get(&self, at: usize) -> Option<ObjId>
        ensures { result ≡ slice_get self.now at }
    {
        if at < self.len() {
            Some(self.number_at(at))
        } else {
            None
        }
    }

    /// The numbers but the one at a place. All other blocks are shared with this list. Where memory runs out the answer is
    /// `OutOfMemory`.
    pub fn without_place(&self, alloc: Global, at: usize) -> Result<Self, OutOfMemory>
        requires { at < length self.now }
        ensures { IfOk result (λ left. left ≡ take at self.now ++ drop (at + 1) self.now) }
    {
        let blocks = self.blocks.as_slice();
        let (block, place) = find(blocks, at);
        let numbers = blocks[block].numbers.as_slice();
        let mut left = Numbers::with_room(alloc, blocks.len())?;
        left.share(&blocks[..block])?;
        left.put_but_one(alloc, numbers, place)?;
        left.share(&blocks[block + 1..])?;
        Ok(left)
    }

    // The empty list, with room for so many blocks.
    fn with_room(alloc: Global, blocks: usize) -> Result<Self, OutOfMemory>
        ensures { IfOk result (λ list. list ≡ []) }
    {
        Ok(Numbers {
            blocks: Vec::with_capacity(alloc, blocks)?,
        })
    }

    // Puts the numbers of a block last. One that has none is left out.
    fn put(&mut self, numbers: Rc<Vec<ObjId>>) -> Result<(), OutOfMemory>
        requires { length self.old + length numbers.value.items < 2 ^ 63 }
        ensures { OnOk result (self.new ≡ self.old ++ numbers.value.items) }
    {
        if numbers.is_empty() {
            return Ok(());
        }
        let end = end_of(&self.blocks) + numbers.len();
        self.blocks.push(Block { end, numbers })?;
        Ok(())
    }

    // Puts these numbers last, in a block of their own.
    fn put_copied(&mut self, alloc: Global, numbers: &[ObjId]) -> Result<(), OutOfMemory>
        requires { length self.old + length numbers.now < 2 ^ 63 }
        ensures { OnOk result (self.new ≡ self.old ++ numbers.now) }
    {
        let copied = Vec::from_slice(alloc, numbers)?;
        self.put(Rc::new(alloc, copied)?)
    }

    // Puts these numbers last, but the one at a place, in a block of their own.
    fn put_but_one(
        &mut self,
        alloc: Global,
        numbers: &[ObjId],
        at: usize,
    ) -> Result<(), OutOfMemory>
        requires within { at < length numbers.now }
        requires fits { length self.old + length numbers.now ≤ 2 ^ 63 }
        ensures { OnOk result (self.new ≡ self.old ++ (take at numbers.now ++ drop (at + 1) numbers.now)) }
    {
        let mut left = Vec::with_capacity(alloc, numbers.len() - 1)?;
        left.extend_from_slice(&numbers[..at])?;
        left.extend_from_slice(&numbers[at + 1..])?;
        self.put(Rc::new(alloc, left)?)
    }

    /// The same numbers, in the same blocks.
    fn shared(&self, alloc: Global) -> Result<Self, OutOfMemory>
        ensures { IfOk result (λ copied. copied ≡ self.now) }
    {
        let blocks = self.blocks.as_slice();
        let mut copied = Numbers::with_room(alloc, blocks.len())?;
        copied.share(blocks)?;
        Ok(copied)
    }

    // Puts the numbers of these blocks last, and shares the blocks.
    fn share(&mut self, blocks: &[Block]) -> Result<(), OutOfMemory>
        requires { length self.old + length (joined blocks.now) < 2 ^ 63 }
        ensures { OnOk result (self.new ≡ self.old ++ joined blocks.now) }
    {
        for block in blocks {
            self.put(block.numbers.clone()?)?;
        }
        Ok(())
    }
}

// How many numbers blocks have.
fn end_of(blocks: &[Block]) -> usize
    requires { IsCounted 0 blocks.now }
    ensures { result ≡ length (joined blocks.now) }
{
    match blocks.last() {
        Some(block) => block.end,
        None => 0,
    }
}

// The block that has the number at a place, and the place there.
fn find(blocks: &[Block], at: usize) -> (usize, usize)
    requires counted { IsCounted 0 blocks.now }
    requires within { at < length (joined blocks.now) }
    ensures { IsFound blocks.now at result.0 result.1 }
{
    let place = blocks.partition_point(|block| block.end <= at);
    let block = &blocks[place];
    (place, at - (block.end - block.numbers.len()))
}

// The numbers of the block that has the number at a place, from there on.
fn run(blocks: &[Block], at: usize) -> &[ObjId]
    requires counted { IsCounted 0 blocks.now }
    requires within { at < length (joined blocks.now) }
    ensures numbers { result.now ≡ take (length result.now) (drop at (joined blocks.now)) }
    ensures some { 0 < length result.now }
{
    let (block, place) = find(blocks, at);
    &blocks[block].numbers.as_slice()[place..]
}
