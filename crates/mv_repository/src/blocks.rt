//! What many statuses of a pack do that stand one behind the other. One that comes late can turn all that stand behind it
//! over. It does not go through each of them: of a block of them it is known what it leaves of a pack that comes to it
//! active, and whose reverts stand in it, since a pack that another changed goes through as it comes.

ghost use Rattle.std.specs.Prelude.{◌≡◌, ◌≤◌, ◌<◌, ◌+◌};
ghost use Rattle.mv_repository.specs.Clauses.{AreBlocks, IsCut, IsFront, IsSummary, List, TheBlock, effect_in, entry_at, fold, get_or, length, next_in, take, without, ℕ};

use crate::Effect;
use crate::entry::sender_at;
use crate::state::{Basis, is_active, standing_by};
use mv_link::{PARTIES_LIMIT, PartySet};

/// A block is made of at least so many statuses.
const BLOCK: usize = 64;

/// It holds at most so many.
const FULL: usize = 2 * BLOCK;

/// A repository takes any sender, and a set has so many parties: a sender stands in it by what is left of its number once it is
/// divided by this.
const SENDERS: u32 = PARTIES_LIMIT as u32;

/// What some statuses of a pack do that stand one behind the other.
#[derive(Clone, Copy)]
pub(crate) struct Block {
    /// How many they are.
    count: usize,
    /// The place of the entry by which a pack stands behind them that comes to them active.
    of_active: u32,
    /// That by which the pack stands behind them as it comes to them.
    after: u32,
    /// Whose reverts are among them.
    reverters: PartySet,
}

impl Block {
    /// What these statuses do to a pack that comes to them by an entry.
    fn of(basis: &Basis<'_>, by: u32, own: &[u32]) -> Block
        ensures count { result.count ≡ length own.now }
        ensures after { result.after ≡ fold (next_in basis.now) by own.now }
        ensures summary { IsSummary (entry_at basis.now.log.now) (next_in basis.now) basis.now.birth result own.now }
    {
        let mut reverters = PartySet::none();
        for place in own {
            if is_active(standing_by(basis.log, *place)) {
                reverters = reverters.with(sender_at(basis.log, *place as usize) % SENDERS);
            }
        }
        let of_active = basis.after(basis.birth, own);
        let mut block = Block {
            count: own.len(),
            of_active,
            after: of_active,
            reverters,
        };
        block.after = block.pass(basis, by, own);
        block
    }

    /// The place of the entry by which a pack stands behind the statuses of the block that comes to them by another.
    fn pass(&self, basis: &Basis<'_>, by: u32, own: &[u32]) -> u32
        requires { IsSummary (entry_at basis.now.log.now) (next_in basis.now) basis.now.birth self.now own.now }
        ensures { result ≡ fold (next_in basis.now) by own.now }
    {
        if by == basis.birth {
            return self.of_active;
        }
        let sender = sender_at(basis.log, by as usize) % SENDERS;
        if is_active(standing_by(basis.log, by)) || self.reverters.has(sender) {
            return basis.after(by, own);
        }
        by
    }
}

/// Where some blocks end.
#[derive(Clone, Copy)]
struct Cut {
    /// How many they are.
    pub number: usize,
    /// How many statuses stand in them.
    pub start: usize,
    /// The place of the entry by which the pack stands behind them.
    pub by: u32,
}

/// The blocks that end in front of a place among the statuses, or at it. The place stands in the next, if there is one.
fn cut_at(basis: &Basis<'_>, blocks: &Vec<Block>, at: usize) -> Cut
    ensures at { result.start ≤ at }
    ensures inside { result.number < length blocks.now.items → (block : TheBlock) → block ≡ get_or blocks.now.items result.number block
        → at < result.start + block.count }
    ensures cut { (own : List ℕ) → AreBlocks (entry_at basis.now.log.now) (next_in basis.now) basis.now.birth basis.now.birth blocks.now.items own
        → IsCut (entry_at basis.now.log.now) (next_in basis.now) basis.now.birth blocks.now.items own result }
{
    let mut cut = Cut {
        number: 0,
        start: 0,
        by: basis.birth,
    };
    while cut.number < blocks.len() {
        let block = blocks[cut.number];
        if at - cut.start < block.count {
            return cut;
        }
        cut = Cut {
            number: cut.number + 1,
            start: cut.start + block.count,
            by: block.after,
        };
    }
    cut
}

/// Of how many of these statuses the first block is made: of a few more than it must be, where a pack that comes to them
/// active stands active behind them. So a chain of changes and reverts is cut between two pairs.
fn block_size(basis: &Basis<'_>, rest: &[u32]) -> usize
    requires { BLOCK ≤ length rest.now }
    ensures least { BLOCK ≤ result }
    ensures within { result ≤ length rest.now }
{
    let most = rest.len().min(BLOCK + BLOCK / 2);
    let mut by = basis.after(basis.birth, &rest[..BLOCK]);
    let mut size = BLOCK;
    while size < most && by != basis.birth {
        by = basis.next(by, rest[size]).1;
        size += 1;
    }
    size
}

/// Makes blocks of the statuses behind some blocks, but for a few at the end; the place of the entry by which the pack stands
/// behind all, where it comes to them by another. Where memory is refused for a block, the statuses from there on stand in
/// none.
fn extend(basis: &Basis<'_>, own: &[u32], blocks: &mut Vec<Block>, by: u32) -> u32
    ensures blocks { (all : List ℕ) → IsFront (entry_at basis.now.log.now) (next_in basis.now) basis.now.birth blocks.old.items all by own.now
        → AreBlocks (entry_at basis.now.log.now) (next_in basis.now) basis.now.birth basis.now.birth blocks.new.items all }
    ensures by { result ≡ fold (next_in basis.now) by own.now }
{
    let mut last = by;
    let mut rest = own;
    while rest.len() >= BLOCK {
        let (some, behind) = rest.split_at(block_size(basis, rest));
        let block = Block::of(basis, last, some);
        if blocks.push(block).is_err() {
            return basis.after(last, rest);
        }
        last = block.after;
        rest = behind;
    }
    basis.after(last, rest)
}

/// Works out again the block behind a cut, where the status at a place was put in, and takes the pack through the blocks and the
/// statuses behind it, as far as that changes something. The place of the entry by which it stands behind all, where that by which
/// it stood before is known. The clauses alone speak of the place.
fn pass_on(
    basis: &Basis<'_>,
    own: &[u32],
    blocks: &mut Vec<Block>,
    at: usize,
    cut: Cut,
    standing: u32,
) -> u32
    requires within { at < length own.now }
    requires number { cut.number < length blocks.old.items }
    requires at { cut.start ≤ at }
    requires inside { (block : TheBlock) → block ≡ get_or blocks.old.items cut.number block → at < cut.start + block.count }
    requires cut { IsCut (entry_at basis.now.log.now) (next_in basis.now) basis.now.birth blocks.old.items (without own.now at) cut }
    requires standing { standing ≡ fold (next_in basis.now) basis.now.birth (without own.now at) }
    ensures blocks { AreBlocks (entry_at basis.now.log.now) (next_in basis.now) basis.now.birth basis.now.birth blocks.new.items own.now }
    ensures by { result ≡ fold (next_in basis.now) basis.now.birth own.now }
{
    let (_, rest) = own.split_at(cut.start);
    let block = &mut blocks[cut.number];
    let mut before = block.after;
    let (some, mut rest) = rest.split_at(block.count + 1);
    *block = Block::of(basis, cut.by, some);
    let mut last = block.after;
    for number in cut.number + 1..blocks.len() {
        if last == before {
            return standing;
        }
        let block = &mut blocks[number];
        let (some, behind) = rest.split_at(block.count);
        before = block.after;
        last = block.pass(basis, last, some);
        block.after = last;
        rest = behind;
    }
    extend(basis, rest, blocks, last)
}

/// Works out the blocks again where the status at a place was put in: its effect, and the place of the entry by which the pack stands
/// behind all, where that by which it stood behind all before is known.
pub(crate) fn put_late(
    basis: &Basis<'_>,
    own: &[u32],
    blocks: &mut Vec<Block>,
    at: usize,
    standing: u32,
) -> (Effect, u32)
    requires within { at < length own.now }
    requires blocks { AreBlocks (entry_at basis.now.log.now) (next_in basis.now) basis.now.birth basis.now.birth blocks.old.items (without own.now at) }
    requires standing { standing ≡ fold (next_in basis.now) basis.now.birth (without own.now at) }
    ensures effect { result.0 ≡ effect_in basis.now (fold (next_in basis.now) basis.now.birth (take at own.now)) (get_or own.now at 0) }
    ensures blocks { AreBlocks (entry_at basis.now.log.now) (next_in basis.now) basis.now.birth basis.now.birth blocks.new.items own.now }
    ensures by { result.1 ≡ fold (next_in basis.now) basis.now.birth own.now }
{
    let place = own[at];
    if at + 1 == own.len() {
        return basis.next(standing, place);
    }
    let cut = cut_at(basis, blocks, at);
    let (_, rest) = own.split_at(cut.start);
    let before = basis.after(cut.by, &rest[..at - cut.start]);
    let (effect, _) = basis.next(before, place);
    if cut.number < blocks.len() && blocks[cut.number].count < FULL {
        return (effect, pass_on(basis, own, blocks, at, cut, standing));
    }
    blocks.truncate(cut.number);
    (effect, extend(basis, rest, blocks, cut.by))
}
