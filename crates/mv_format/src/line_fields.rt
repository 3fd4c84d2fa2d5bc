//! The fields of a line as they are met, in any order, and what stands in each.

ghost use Rattle.std.specs.Prelude.{◌≡◌, [], IfSome, IsTrue, None, is_some, true};
ghost use Rattle.mv_format.specs.inside.LineFields.{AreAll};

use mv_message::{Message, Shared};

/// What stands in the fields that were met of a line that asks a step.
#[derive(Default, Drop)]
pub(crate) struct LineFields<'a> {
    /// In `do`.
    pub(crate) asked: Option<&'a str>,
    /// In `from`.
    pub(crate) from: Option<u32>,
    /// In `gtin`.
    pub(crate) gtin: Option<&'a str>,
    /// In `message`.
    pub(crate) message: Option<Shared<Message>>,
    /// In `number`.
    pub(crate) number: Option<u32>,
    /// In `party`.
    pub(crate) party: Option<u32>,
    /// In `q`.
    pub(crate) q: Option<u32>,
    /// In `serial`.
    pub(crate) serial: Option<&'a str>,
    /// In `to`.
    pub(crate) to: Option<u32>,
}

impl LineFields<'_> {
    /// `Some(())` where no field is left, and `None` where one is.
    #[inline(always)]
    pub(crate) fn end(&self) -> Option<()>
        ensures { IfSome result (λ _. AreAll self.now []) }
    {
        let is_empty = self.asked.is_none()
            && self.from.is_none()
            && self.gtin.is_none()
            && self.message.is_none()
            && self.number.is_none()
            && self.party.is_none()
            && self.q.is_none()
            && self.serial.is_none()
            && self.to.is_none();
        is_empty.then_some(())
    }
}

/// Puts a value into a place where none is yet, and says whether it could.
#[inline(always)]
pub(crate) fn puts<T: Drop>(place: &mut Option<T>, value: Option<T>) -> bool
    ensures { IsTrue result → (place.old ≡ None) × (place.new ≡ value) × (is_some value ≡ true) }
{
    if place.is_some() || value.is_none() {
        return false;
    }
    *place = value;
    true
}
