//! The index.

ghost use Rattle.std.specs.Prelude.{◌≡◌, ◌<◌, ◌≤◌, ◌+◌, ◌++◌, ◌∷◌, [], ℕ, length, get_or, true, false, IfSome, IfNone, IfOk, IsTrue, ◌↔◌, OnOk, OnErr, ◌^◌};
ghost use Rattle.mv_index.specs.Hashes.{no_hashes, short_hash};
ghost use Rattle.mv_index.specs.inside.Chains.{HasParts, IsChained, bucket_of, hashes_of, parts_of};

use std::alloc::{AllocError, Global};
use std::hash::{FoldHasher, Hash, Hasher};
use std::marker::Model;

/// How many numbers there are for each bucket, at most.
const LOAD: usize = 3;

/// How many buckets are near to the processor anyway: 32 KiB of them.
const NEAR: usize = 4_096;

/// The most numbers that an index has.
pub const MOST_NUMBERS: usize = 1 << 31;

/// What is kept of a number.
#[derive(Clone, Copy)]
pub(crate) struct Link {
    /// The hash of what it stands for.
    pub(crate) hash: u32,
    /// One more than the number before it in its bucket; 0 where there is none.
    pub(crate) before: u32,
}

/// What is kept of the numbers of one bucket.
#[derive(Clone, Copy)]
pub(crate) struct Bucket {
    /// One more than the last of them; 0 where there is none.
    pub(crate) last: u32,
    /// Which of 32 parts of all hashes the bucket may have some of, a bit for each: so nearly all that is not there is not looked for.
    pub(crate) parts: u32,
}

impl Bucket {
    /// Whether it may have some of the parts of all hashes that a hash is of.
    fn has_parts(&self, hash: u32) -> bool
        ensures { IsTrue result ↔ HasParts self.now hash }
    {
        let parts = parts_of(hash);
        self.parts & parts == parts
    }

    /// Puts one more number into it, which has a hash; gives one more than the number before it.
    #[tactic(auto, using(crate::proofs::ChainLemmas::parts_kept))]
    fn put(&mut self, number: u32, hash: u32) -> u32
        requires { number + 1 < 2 ^ 32 }
        ensures before { result ≡ self.old.last }
        ensures last { self.new.last ≡ number + 1 }
        ensures own { HasParts self.new hash }
        ensures kept { (other : ℕ) → HasParts self.old other → HasParts self.new other }
    {
        let before = self.last;
        self.last = number + 1;
        self.parts |= parts_of(hash);
        before
    }
}

/// The numbers from 0 on, each by the hash of what it stands for. What that is stands elsewhere.
#[derive(Drop)]
pub struct HashIndex {
    /// What memory is got from.
    alloc: Global,
    /// The buckets.
    buckets: Vec<Bucket>,
    /// For each number its hash, and the number before it in its bucket.
    links: Vec<Link>,
    /// What [`HashIndex::touch`] saw. Nobody reads it: it is kept, so that no compiler leaves the look out.
    seen: u32,
}

impl Model for HashIndex {
    ghost use Rattle.std.specs.Prelude.{length};
    ghost use Rattle.std.specs.Vec.{vec_capacity};
    ghost use Rattle.mv_index.specs.Hashes.{Hashes};
    ghost use Rattle.mv_index.specs.inside.Chains.{IsIndex, hashes_of, room_of};

    ghost Value = { Hashes };

    ghost view = { λ a. record { hashes = hashes_of a.links.items; room = room_of (length a.buckets.items) (length a.links.items) (vec_capacity a.links) } };

    ghost invariant = { λ a. IsIndex a.buckets.items a.links.items };
}

impl HashIndex {
    /// No number. It takes no memory.
    pub fn new(alloc: Global) -> HashIndex
        ensures { result ≡ no_hashes }
    {
        HashIndex {
            alloc,
            buckets: Vec::new(alloc),
            links: Vec::new(alloc),
            seen: 0,
        }
    }

    /// The number of what has a hash, and is what is looked for. Only of what has this hash it is asked whether it is.
    #[inline(always)]
    pub fn find<F: Fn(usize) -> bool>(&self, hash: u32, is_it: F) -> Option<usize>
        requires { (number : ℕ) → number < length self.now.hashes → F.pre is_it number }
        ensures within { IfSome result (λ number. number < length self.now.hashes) }
        ensures hash { IfSome result (λ number. get_or self.now.hashes number 0 ≡ hash) }
        ensures found { IfSome result (λ number. F.post is_it number true) }
        ensures absent { IfNone result ((number : ℕ) → number < length self.now.hashes → get_or self.now.hashes number 0 ≡ hash → F.post is_it number false) }
    {
        if self.buckets.is_empty() {
            return None;
        }
        let bucket = self.buckets[bucket_of(hash, self.buckets.len())];
        if !bucket.has_parts(hash) {
            return None;
        }
        let mut at = bucket.last as usize;
        while at > 0 {
            let link = self.links[at - 1];
            if link.hash == hash && is_it(at - 1) {
                return Some(at - 1);
            }
            at = link.before as usize;
        }
        None
    }

    /// Looks once at the buckets of values that will soon be looked for, so that the processor gets them from memory side by side, and not one
    /// behind the other. Where there are few it looks at none. Nothing changes.
    pub fn touch<T: Hash>(&mut self, soon: &[T])
        ensures { self.new ≡ self.old }
    {
        if self.buckets.len() <= NEAR {
            return;
        }
        let mut seen = 0;
        for value in soon {
            let bucket = bucket_of(hash_of(value), self.buckets.len());
            seen ^= self.buckets[bucket].parts;
        }
        self.seen = seen;
    }

    /// Gets room for more numbers. It is refused where memory is, or for more than 2^31 numbers. Each number keeps its hash all the same, and
    /// there is no less room than before.
    pub fn reserve(&mut self, additional: usize) -> Result<(), AllocError>
        ensures hashes { self.new.hashes ≡ self.old.hashes }
        ensures ok { OnOk result (additional ≤ self.new.room) }
        ensures room { self.old.room ≤ self.new.room }
    {
        let len = self.links.len();
        if additional > MOST_NUMBERS - len {
            return Err(AllocError);
        }
        if additional > self.links.capacity() - len {
            // By a quarter at least, so that it is seldom done, and little is left over.
            self.links.reserve_exact(additional.max(len / 4))?;
        }
        let wanted = (len + additional) / LOAD + 1;
        if wanted > self.buckets.len() {
            let links = self.links.as_mut_slice();
            self.buckets = chain_all(self.alloc, links, wanted.next_power_of_two())?;
        }
        Ok(())
    }

    /// Gives the next number to what has a hash.
    pub fn push(&mut self, hash: u32)
        requires { 0 < self.old.room }
        ensures hashes { self.new.hashes ≡ self.old.hashes ++ hash ∷ [] }
        ensures room { self.new.room + 1 ≡ self.old.room }
    {
        let number = self.links.len();
        self.links.push_reserved(Link { hash, before: 0 });
        chain(
            self.buckets.as_mut_slice(),
            self.links.as_mut_slice(),
            number,
        );
    }
}

/// Of 32 parts of all hashes the two that a hash is of, a bit for each.
fn parts_of(hash: u32) -> u32
    ensures { result ≡ parts_of hash }
{
    1 << (hash >> 27) | 1 << (hash >> 22 & 31)
}

/// The bucket of a hash, by the number of buckets.
fn bucket_of(hash: u32, buckets: usize) -> usize
    requires { 0 < buckets }
    ensures value { result ≡ bucket_of buckets hash }
    ensures bound { result < buckets }
{
    hash as usize & (buckets - 1)
}

/// Chains a number, where all before it are chained.
#[tactic(auto, using(crate::proofs::ChainLemmas::hashes_kept))]
fn chain(buckets: &mut [Bucket], links: &mut [Link], number: usize)
    requires buckets { 0 < length buckets.old }
    requires within { number < length links.old }
    requires few { length links.old ≤ 2 ^ 31 }
    requires chained { IsChained buckets.old links.old number }
    ensures chained { IsChained buckets.new links.new (number + 1) }
    ensures hashes { hashes_of links.new ≡ hashes_of links.old }
    ensures count { length buckets.new ≡ length buckets.old }
{
    let hash = links[number].hash;
    let bucket = bucket_of(hash, buckets.len());
    links[number].before = buckets[bucket].put(number as u32, hash);
}

/// Chains all numbers in so many new buckets. Where memory is refused nothing has changed.
fn chain_all(alloc: Global, links: &mut [Link], count: usize) -> Result<Vec<Bucket>, AllocError>
    requires buckets { 0 < count }
    requires few { length links.old ≤ 2 ^ 31 }
    ensures chained { IfOk result (λ buckets. IsChained buckets.items links.new (length links.new)) }
    ensures count { IfOk result (λ buckets. length buckets.items ≡ count) }
    ensures hashes { hashes_of links.new ≡ hashes_of links.old }
    ensures err { OnErr result (links.new ≡ links.old) }
{
    let mut buckets = Vec::new(alloc);
    buckets.resize(count, Bucket { last: 0, parts: 0 })?;
    for number in 0..links.len() {
        chain(buckets.as_mut_slice(), links, number);
    }
    Ok(buckets)
}

/// The hash of a value. Values that give a hasher the same have the same.
#[tactic(auto, unfolding(crate::specs::Hashes::short_hash))]
pub fn hash_of<T: Hash>(value: &T) -> u32
    ensures { result ≡ short_hash (T.hash_input value.now) }
{
    let mut state = FoldHasher::default();
    value.hash(&mut state);
    let hash = state.finish();
    ((hash ^ (hash >> 32)) & 0xFFFF_FFFF) as u32
}
