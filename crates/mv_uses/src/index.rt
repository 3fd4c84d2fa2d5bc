//! An index in which something is looked for by its hash.

ghost use Rattle.std.specs.Prelude.{◌≡◌, ◌≢◌, ◌<◌, ℕ, length, get_or, true, IfNone, IfSome};

use mv_index::HashIndex;

/// A number that stands for something with this hash. There is none where nothing has the hash.
pub fn any_with(index: &HashIndex, hash: u32) -> Option<usize>
    ensures some { IfSome result (λ number. number < length index.now.hashes) }
    ensures hash { IfSome result (λ number. get_or index.now.hashes number 0 ≡ hash) }
    ensures none { IfNone result ((number : ℕ) → number < length index.now.hashes → get_or index.now.hashes number 0 ≢ hash) }
{
    let any = |_number: usize| -> bool
        ensures { result ≡ true }
    { true };
    index.find(hash, any)
}
