//! Texts of bytes that are known to be one.

ghost use Rattle.std.specs.Prelude.{◌≡◌, IsUtf8};

use std::str;

/// The text that these bytes are. They are not looked at again: that they are one is proved at each call.
pub(crate) fn text_of(bytes: &[u8]) -> &str
    requires { IsUtf8 bytes.now }
    ensures { result.now ≡ bytes.now }
{
    unsafe { str::from_utf8_unchecked(bytes) }
}
