//! What is written as JSON.

ghost use Rattle.std.specs.Prelude.{map};
ghost use Rattle.mv_format.specs.Words.{Data, array, items_of, string, strings, whole};
ghost use Rattle.mv_format.specs.Writing.{Adds, Appended};

use mv_json::TextWriter;
use mv_link::Reached;
use mv_message::Markets;
use mv_pack::Market;
use std::alloc::{AllocError, Global};
use std::mem;

/// What is written as a JSON value.
pub trait ToJson {
    /// The value.
    ghost value: { Self → Data };

    /// Writes the value.
    fn write(&self, writer: &mut TextWriter) -> Result<(), AllocError>
        ensures { Adds result writer.old writer.new (value self.now) };
}

/// Writes the canonical text of a value behind what the buffer holds. Where memory is refused the buffer is as it was.
pub fn append_json<T: ToJson>(alloc: Global, out: &mut Vec<u8>, value: &T) -> Result<(), AllocError>
    ensures { Appended result out.old.items out.new.items (T.value value.now) }
{
    let mut writer = TextWriter::new(mem::replace(out, Vec::new(alloc)));
    let done = value.write(&mut writer);
    *out = writer.into_buffer(done.is_ok());
    done
}

/// Writes a list of values.
pub(crate) fn write_list<T: ToJson>(writer: &mut TextWriter, items: &[T]) -> Result<(), AllocError>
    ensures { Adds result writer.old writer.new (array (items_of (map T.value items.now))) }
{
    writer.begin_array()?;
    for item in items {
        item.write(writer)?;
    }
    writer.end_array()
}

/// A whole number.
impl ToJson for u32 {
    ghost value = { whole };

    #[tactic(auto, unfolding(crate::specs::Writing::tokens_of))]
    fn write(&self, writer: &mut TextWriter) -> Result<(), AllocError> {
        writer.u64(u64::from(*self))
    }
}

/// The parties that a message reached, as a list.
impl ToJson for Reached {
    ghost value = { λ parties. array (items_of (map whole parties)) };

    fn write(&self, writer: &mut TextWriter) -> Result<(), AllocError> {
        writer.begin_array()?;
        let mut rest = self.parties();
        while let Some(party) = rest.pop_first() {
            writer.u64(u64::from(party))?;
        }
        writer.end_array()
    }
}

/// The text of a market.
impl ToJson for Market {
    ghost value = { string };

    #[tactic(auto, unfolding(crate::specs::Writing::tokens_of))]
    fn write(&self, writer: &mut TextWriter) -> Result<(), AllocError> {
        writer.string(self.as_str())
    }
}

/// A list of markets.
impl ToJson for Markets {
    ghost value = { λ texts. array (strings texts) };

    fn write(&self, writer: &mut TextWriter) -> Result<(), AllocError> {
        write_list(writer, self.as_slice())
    }
}
