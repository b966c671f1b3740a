//! Numbers in texts.

ghost use Rattle.std.specs.Prelude.{◌≡◌, ◌∷◌, ◌++◌, [], OnOk, decimal};

use itoa::Buffer;
use out_of_memory::Memory;

/// Appends a number in decimal, and then a byte.
pub fn push_number(text: &mut Vec<u8>, number: u128, behind: u8) -> Result<(), Memory>
    ensures { OnOk result (text.new.items ≡ (text.old.items ++ decimal number) ++ behind ∷ []) }
{
    let mut digits = Buffer::new();
    text.extend_from_slice(digits.format(number).as_bytes())?;
    text.push(behind)?;
    Ok(())
}
