//! The serial numbers of a message, which contracts see as a list.

ghost use Rattle.std.specs.Prelude.{◌≡◌, nat_eq, IfOk};
ghost use Rattle.std.specs.Cmp.{partial_equiv_from_equiv};
ghost use Rattle.std.specs.Cmp.Lexicographic.{pointwise, nat_list_eq_equiv, lists_equiv};

use mv_pack::Serial;
use std::alloc::{AllocError, Global};
use std::marker::Model;
use std::mem::size_of;
use std::slice;

/// Serial numbers in the order in which a message names them. One may stand twice.
pub struct Serials {
    numbers: Numbers,
}

impl Drop for Serials {
    fn drop(self) {
        let Self { numbers: _ } = self;
    }
}

/// How serial numbers are kept: one alone takes no place of its own.
#[derive(Drop)]
enum Numbers {
    /// One serial number.
    One(Serial),
    /// Any others: none, or more than one.
    Many(Vec<Serial>),
}

impl Model for Serials {
    ghost use Rattle.std.specs.Prelude.{List, ℕ};
    ghost use Rattle.mv_message.specs.inside.Numbers.{listed};

    ghost Value = { List (List ℕ) };

    ghost view = { λ s. listed s.numbers };
}

// A message is as large as the largest of its kinds, some of which hold two such lists.
const _: () = prove!(size_of::<Serials>() <= 32);

impl Serials {
    /// The serial numbers of a vector.
    pub fn new(serials: Vec<Serial>) -> Serials
        ensures { result ≡ serials.items }
    {
        let numbers = match serials.as_slice() {
            [serial] => Numbers::One(serial.copy()),
            _ => Numbers::Many(serials),
        };
        Serials { numbers }
    }

    /// The serial numbers, in order.
    pub fn as_slice(&self) -> &[Serial]
        ensures { result.now ≡ self.now }
    {
        match &self.numbers {
            Numbers::One(serial) => slice::from_ref(serial),
            Numbers::Many(serials) => serials.as_slice(),
        }
    }

    /// A list of its own with the same serial numbers.
    pub fn copy(&self, alloc: Global) -> Result<Serials, AllocError>
        ensures { IfOk result (λ serials. serials ≡ self.now) }
    {
        let numbers = match &self.numbers {
            Numbers::One(serial) => Numbers::One(serial.copy()),
            Numbers::Many(serials) => Numbers::Many(copies_of(alloc, serials.as_slice())?),
        };
        Ok(Serials { numbers })
    }
}

/// Each serial number once more, in order.
fn copies_of(alloc: Global, serials: &[Serial]) -> Result<Vec<Serial>, AllocError>
    ensures { IfOk result (λ copies. copies.items ≡ serials.now) }
{
    let mut copies = Vec::with_capacity(alloc, serials.len())?;
    for serial in serials {
        copies.push_reserved(serial.copy());
    }
    Ok(copies)
}

impl PartialEq for Serials {
    ghost eq = { pointwise (pointwise nat_eq) };

    ghost laws = { partial_equiv_from_equiv (lists_equiv nat_list_eq_equiv) };

    fn eq(&self, other: &Self) -> bool {
        self.as_slice() == other.as_slice()
    }
}

impl Eq for Serials {
    ghost laws = { lists_equiv nat_list_eq_equiv };
}
