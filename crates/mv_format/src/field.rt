//! The fields of a line.

use mv_json::members::Named;

/// A field of a line, other than those of the message that it holds.
#[derive(Clone, Copy, Debug, PartialEq, Eq)]
pub enum LineField {
    /// `do`: what is asked.
    Do,
    /// `from`: the party that something comes from.
    From,
    /// `gtin`: the product code of a pack.
    Gtin,
    /// `message`: the message to submit.
    Message,
    /// `number`: the number of a frame.
    Number,
    /// `parties`: the markets that each party serves.
    Parties,
    /// `party`: the party that asks.
    Party,
    /// `q`: the number of a query among what its party submitted.
    Q,
    /// `serial`: the serial number of a pack.
    Serial,
    /// `submissions`: how many messages each party submits at most.
    Submissions,
    /// `to`: the party that something goes to.
    To,
    /// `uplink`: how many messages of each party are under way to the hub at most.
    Uplink,
    /// `window`: how many items each link keeps.
    Window,
    /// `wire`: how many frames are under way on each link at most.
    Wire,
}

impl Named for LineField {
    ghost use Rattle.mv_format.specs.Fields.{field_name};

    ghost name = { field_name };

    fn name(&self) -> &'static str {
        match self {
            LineField::Do => "do",
            LineField::From => "from",
            LineField::Gtin => "gtin",
            LineField::Message => "message",
            LineField::Number => "number",
            LineField::Parties => "parties",
            LineField::Party => "party",
            LineField::Q => "q",
            LineField::Serial => "serial",
            LineField::Submissions => "submissions",
            LineField::To => "to",
            LineField::Uplink => "uplink",
            LineField::Window => "window",
            LineField::Wire => "wire",
        }
    }
}
