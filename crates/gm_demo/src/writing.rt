//! Writing bytes and numbers behind a text.

ghost use Rattle.std.specs.Prelude.{◌≡◌, ◌++◌, OnOk};

use gm_base::NoMemory;
use itoa::{Buffer, Integer};

// Writes some bytes behind a text.
pub fn put(text: &mut Vec<u8>, bytes: &[u8]) -> Result<(), NoMemory>
    ensures { OnOk result (text.new.items ≡ text.old.items ++ bytes.now) }
{
    text.extend_from_slice(bytes)?;
    Ok(())
}

// Writes some bytes and then a number in decimal behind a text.
pub fn put_number<I: Integer>(text: &mut Vec<u8>, before: &[u8], number: I) -> Result<(), NoMemory>
    ensures { OnOk result (text.new.items ≡ text.old.items ++ before.now ++ I.text number) }
{
    let mut buffer = Buffer::new();
    put(text, before)?;
    put(text, buffer.format(number).as_bytes())?;
    Ok(())
}
