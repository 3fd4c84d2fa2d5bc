//! What faults say, in the words of a person who reads an error.

use mv_hub::{HubFault, RouteFault};
use mv_json::{Field, MessageFault};
use mv_lines::{LineFault, OpenFault};
use mv_link::LinkFault;
use mv_machine::{LimitsFault, Refusal};
use mv_pack::{Gtin, PackFault, Serial};
use mv_party::SiteFault;
use std::error::Error;
use std::fmt::InlineText;

fn says<E: Error>(fault: E, words: &str) -> bool {
    let text: InlineText<80> = InlineText::of(fault);
    text.as_str() == words
}

#[test]
fn values_and_messages(rt: HostRuntime) {
    let digit = "the last digit of the GTIN does not fit the others";
    assert!(rt; matches!(Gtin::read("00000000000018"), Err(fault) if says(fault, digit)));
    let character = "the byte at place 2 is none of the 82 characters of codes";
    assert!(rt; matches!(Serial::read("A B"), Err(fault) if says(fault, character)));
    assert!(rt;
        says(
            MessageFault::Missing(Field::Gtin),
            "the field `gtin` is missing"
        )
    );
    let market = MessageFault::Pack(Field::Markets, PackFault::Market);
    assert!(rt;
        says(
            market,
            "the field `markets`: a market has two capital letters"
        )
    );
    let nested = LineFault::Message(MessageFault::Count(Field::Serials));
    assert!(rt; says(nested, "the list `serials` has too few or too many members"));
}

#[test]
fn calls(rt: HostRuntime) {
    assert!(rt;
        says(
            LinkFault::Gone,
            "the frame of this number is kept no longer"
        )
    );
    assert!(rt; says(HubFault::ServedTwice, "a market is served twice"));
    assert!(rt; says(RouteFault::Busy(3), "the link to party 3 has no room"));
    assert!(rt; says(SiteFault::UplinkFull, "the uplink is full"));
    assert!(rt; says(Refusal::Memory, "out of memory"));
    assert!(rt;
        says(
            OpenFault::Limits(LimitsFault::Wire),
            "the wire is not 1 to 64"
        )
    );
}
