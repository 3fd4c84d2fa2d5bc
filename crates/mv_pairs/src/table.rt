//! The table.

ghost use Rattle.std.specs.Prelude.{◌≡◌, ◌<◌, length, IfOk, Ok};
ghost use Rattle.std.specs.List.{All};
ghost use Rattle.std.specs.Borrow.{sem};
ghost use Rattle.mv_pairs.specs.Pairs.{cell, put, IsSquare};
ghost use Rattle.mv_pairs.specs.inside.Pairs.{rows_of};

use std::alloc::{AllocError, Global};
use std::marker::Model;

/// A value for each ordered pair of parties, a party and itself included.
#[derive(Drop)]
pub struct PairTable<T> {
    /// The row of each party, that from which the pair goes.
    rows: Vec<Vec<T>>,
}

impl<T> Model for PairTable<T> {
    ghost use Rattle.std.specs.Prelude.{List, length};
    ghost use Rattle.mv_pairs.specs.Pairs.{IsSquare};
    ghost use Rattle.mv_pairs.specs.inside.Pairs.{rows_of};

    ghost Value = { List (List T) };

    ghost view = { λ t. rows_of t.rows.items };

    ghost invariant = { λ t. IsSquare (length t.rows.items) (rows_of t.rows.items) };
}

impl<T> PairTable<T> {
    ghost use Rattle.std.specs.Borrow.{Lends};
    ghost use Rattle.mv_pairs.specs.contracts.table.PairTable.{the_row};

    /// How many parties there are.
    pub fn parties(&self) -> usize
        ensures value { result ≡ length self.now }
        ensures square { IsSquare (length self.now) self.now }
    {
        self.rows.len()
    }

    /// The value of a pair.
    #[tactic(auto, using(crate::proofs::CallerLemmas::row_wide))]
    pub fn at(&self, from: u32, to: u32) -> &T
        requires from { from < length self.now }
        requires to { to < length self.now }
        ensures { (default : T) → cell self.now from to default ≡ result.now }
    {
        &self.rows[from as usize][to as usize]
    }

    /// The place of a pair. What is written there is put into the table.
    #[tactic(auto, using(crate::proofs::CallerLemmas::row_wide, crate::proofs::CallerLemmas::square_kept))]
    pub fn at_mut(&mut self, from: u32, to: u32) -> &mut T
        requires from { from < length self.old }
        requires to { to < length self.old }
        ensures* lends { sem 𝓛 (Lends (the_row T.row) T.row self.entry result (put self.old from to)) }
        ensures value { (default : T) → cell self.old from to default ≡ result.now }
    {
        let row = &mut self.rows[from as usize];
        &mut row[to as usize]
    }
}

impl<T: Drop> PairTable<T> {
    /// A table for so many parties, each value of which `make` gives. Refused for want of memory, or as `make` is.
    pub fn from_fn<F: Fn() -> Result<T, AllocError>>(
        alloc: Global,
        count: u32,
        make: F,
    ) -> Result<PairTable<T>, AllocError>
        requires { F.IsAlwaysCallable make }
        ensures square { IfOk result (λ table. IsSquare count table) }
        ensures each { IfOk result (λ table. All (All (λ value. F.post make (Ok value))) table) }
    {
        let mut rows = Vec::new(alloc);
        for _from in 0..count {
            rows.push(row_from_fn(alloc, count, &make)?)?;
        }
        Ok(PairTable { rows })
    }
}

/// A row of so many values that `make` gives.
fn row_from_fn<T: Drop, F: Fn() -> Result<T, AllocError>>(
    alloc: Global,
    count: u32,
    make: &F,
) -> Result<Vec<T>, AllocError>
    requires { F.IsAlwaysCallable make.now }
    ensures { IfOk result (λ row. (length row.items ≡ count) × All (λ value. F.post make.now (Ok value)) row.items) }
{
    let mut row = Vec::new(alloc);
    for _to in 0..count {
        row.push(make()?)?;
    }
    Ok(row)
}
