//! Appends bytes and decimals to a text.

ghost use Rattle.std.specs.Prelude.{◌≡◌, ◌++◌, decimal, OnOk, OnErr};
ghost use Rattle.std.specs.Fmt.{signed_decimal};

use out_of_memory::NoMemory;
use std::alloc::Global;

/// Appends `text` to `out`. If memory runs out `out` is unchanged.
pub fn append(out: &mut Vec<u8>, text: &[u8]) -> Result<(), NoMemory>
    ensures ok { OnOk result (out.new.items ≡ out.old.items ++ text.now) }
    ensures err { OnErr result (out.new.items ≡ out.old.items) }
{
    out.extend_from_slice(text)?;
    Ok(())
}

/// Appends the decimal digits of `number` to `out`, without leading zeros. If memory runs out `out` is unchanged.
pub fn append_decimal(alloc: Global, out: &mut Vec<u8>, number: u128) -> Result<(), NoMemory>
    ensures ok { OnOk result (out.new.items ≡ out.old.items ++ decimal number) }
    ensures err { OnErr result (out.new.items ≡ out.old.items) }
{
    let digits = number.to_string(alloc)?;
    append(out, digits.as_bytes())
}

/// Appends the decimal digits of `number` to `out`, with one `-` before them if it is negative. If memory runs out
/// `out` is unchanged.
pub fn append_signed(alloc: Global, out: &mut Vec<u8>, number: i64) -> Result<(), NoMemory>
    ensures ok { OnOk result (out.new.items ≡ out.old.items ++ signed_decimal number) }
    ensures err { OnErr result (out.new.items ≡ out.old.items) }
{
    let text = number.to_string(alloc)?;
    append(out, text.as_bytes())
}
