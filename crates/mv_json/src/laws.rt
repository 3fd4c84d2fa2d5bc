//! Laws of the JSON form of messages, a sentence each; what they say holds of every value and message.

ghost use Rattle.mv_json.specs.Laws.{ReadsBack, ReadsExactly, ReadIsLegal, ReadsOne, FirstFaultIsGiven, FieldsAreInOrder, KeysOfValuesAscend, ValuesSpell};

/// Each legal message is read back from its value.
#[tactic(auto, using(crate::proofs::ReadingLemmas::reads_back))]
pub fn reads_back()
    ensures { ReadsBack }
{}

/// The value of a legal message is a spelling of it.
#[tactic(auto, using(crate::proofs::ReadingLemmas::value_spells))]
pub fn values_spell()
    ensures { ValuesSpell }
{}

/// A value is read as a message exactly where it is an object with that message's fields and no other, each a spelling
/// of what the message holds.
pub fn reads_exactly()
    ensures { ReadsExactly }
{}

/// What is read is legal: its values are those of readers, and its texts and lists keep their limits.
#[tactic(auto, using(crate::proofs::ReadingLemmas::read_is_legal))]
pub fn read_is_legal()
    ensures { ReadIsLegal }
{}

/// No value is a spelling of two messages.
pub fn reads_one()
    ensures { ReadsOne }
{}

/// Of an object that has a version, a form and no key but the fields of that form, the fault is that of the first of
/// these fields that has one, each looked at by itself; it is read where none has.
pub fn first_fault_is_given()
    ensures { FirstFaultIsGiven }
{}

/// The fields of a message stand in byte order of their names, each once.
#[tactic(auto, using(crate::proofs::ReadingLemmas::fields_are_in_order))]
pub fn fields_are_in_order()
    ensures { FieldsAreInOrder }
{}

/// In the value of a message the keys of each object, that of `found` too, ascend in byte order, each once.
#[tactic(auto, using(crate::proofs::ValueLemmas::keys_ascend))]
pub fn keys_ascend()
    ensures { KeysOfValuesAscend }
{}
