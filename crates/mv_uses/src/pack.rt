//! What names a pack, read from texts.

ghost use Rattle.std.specs.Prelude.{◌≡◌, ◌↔◌, IfErr, IfOk, IsOk, MatchResult, Ok, Err};
ghost use Rattle.mv_pack.specs.Code.{IsCode, read_code};
ghost use Rattle.mv_pack.specs.Gtin.{IsGtinText, read_gtin};

use mv_pack::{Gtin, PackFault, PackKey, Serial};

/// The pack of a product code and a serial number, each read from its text. It is read exactly where both texts are legal; else the
/// fault is that of the product code, and where this has none that of the serial number.
pub fn read_pack(gtin: &str, serial: &str) -> Result<PackKey, PackFault>
    ensures accepted { IsOk result ↔ (IsGtinText gtin.now × IsCode serial.now) }
    ensures pack { IfOk result (λ pack. (read_gtin gtin.now ≡ Ok pack.gtin) × (read_code serial.now ≡ Ok pack.serial)) }
    ensures fault { IfErr result (λ fault. MatchResult (read_gtin gtin.now)
        (λ digits. read_code serial.now ≡ Err fault) (λ first. fault ≡ first)) }
{
    let gtin = Gtin::read(gtin)?;
    let serial = Serial::read(serial)?;
    Ok(PackKey { gtin, serial })
}
