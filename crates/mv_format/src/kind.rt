//! The kinds of lines, and the fields of each.

ghost use Rattle.std.specs.Prelude.{◌≡◌, ◌∷◌};
ghost use Rattle.mv_format.specs.Kinds.{kind_named, kind_at, shape_of};
ghost use Rattle.mv_format.specs.Words.{GivesOr, view};

use crate::field_reading::text_of;
use crate::{LineFault, LineField};
use serde_json::Value;

/// What a line asks, which its field `do` names.
#[derive(Clone, Copy)]
pub(crate) enum LineKind {
    /// `open`: a system of these parties and limits.
    Open,
    /// `submit`: a party submits a message.
    Submit,
    /// `route`: the hub routes the next message of a party.
    Route,
    /// `relay`: the next frame of a link goes on its wire.
    Relay,
    /// `apply`: a repository takes the front frame of a wire.
    Apply,
    /// `repeat`: a frame of a link goes on its wire again.
    Repeat,
    /// `close`: a link is closed.
    Close,
    /// `lose`: the front frame of a wire is lost.
    Lose,
    /// `verify`: a party verifies a pack.
    Verify,
    /// `verdict`: a party takes the verdict on a query.
    Verdict,
}

impl LineKind {
    /// The fields of such a line, in byte order of their names.
    pub(crate) fn fields(self) -> &'static [LineField]
        ensures { result.now ≡ LineField.Do ∷ (shape_of self).0 }
    {
        use LineField::*;
        match self {
            Self::Open => &[Do, Parties, Submissions, Uplink, Window, Wire],
            Self::Submit => &[Do, From, Message],
            Self::Route => &[Do, From],
            Self::Relay | Self::Apply | Self::Close | Self::Lose => &[Do, From, To],
            Self::Repeat => &[Do, From, Number, To],
            Self::Verify => &[Do, Gtin, Party, Serial],
            Self::Verdict => &[Do, Party, Q],
        }
    }
}

/// The kind of that name. Those that come most are asked for first.
pub(crate) fn kind_called(name: &str) -> Option<LineKind>
    ensures { result ≡ kind_named name.now }
{
    match name {
        "apply" => Some(LineKind::Apply),
        "relay" => Some(LineKind::Relay),
        "submit" => Some(LineKind::Submit),
        "route" => Some(LineKind::Route),
        "verify" => Some(LineKind::Verify),
        "verdict" => Some(LineKind::Verdict),
        "repeat" => Some(LineKind::Repeat),
        "close" => Some(LineKind::Close),
        "lose" => Some(LineKind::Lose),
        "open" => Some(LineKind::Open),
        _ => None,
    }
}

/// The kind of an object: M3, M5.
#[tactic(auto, unfolding(crate::specs::Kinds::kind_at))]
pub(crate) fn kind_of(value: &Value) -> Result<LineKind, LineFault>
    ensures { GivesOr result (kind_at (view value.now)) LineFault.Memory }
{
    kind_called(text_of(value, LineField::Do)?).ok_or(LineFault::Kind(LineField::Do))
}
