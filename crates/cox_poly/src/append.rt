//! Bytes and whole numbers, appended to what is written so far.
ghost use Rattle.std.specs.Prelude.{◌<◌, ◌≤◌, ◌+◌, length, vec_len, vec_capacity, OnErr};
ghost use Rattle.std.specs.Fmt.{signed_decimal};
ghost use Rattle.cox_poly.specs.Puts.{Puts};

use crate::NoMemory;
use itoa::Buffer;

/// Appends these bytes. Out of memory, only the first of them may be there; a vector with room for them takes them all.
pub fn put_text(out: &mut Vec<u8>, text: &[u8]) -> Result<(), NoMemory>
    ensures text { Puts result text.now out.old.items out.new.items }
    ensures full { OnErr result (vec_capacity out.old < vec_len out.old + length text.now) }
    ensures capacity { vec_capacity out.old ≤ vec_capacity out.new }
{
    out.extend_from_slice(text)?;
    Ok(())
}

/// Appends a whole number in decimal, with `-` before a negative one. Out of memory, only its first bytes may be there; a vector with
/// room for it takes it whole.
pub fn put_number(out: &mut Vec<u8>, n: i128) -> Result<(), NoMemory>
    ensures text { Puts result (signed_decimal n) out.old.items out.new.items }
    ensures full { OnErr result (vec_capacity out.old < vec_len out.old + length (signed_decimal n)) }
    ensures capacity { vec_capacity out.old ≤ vec_capacity out.new }
{
    put_text(out, Buffer::new().format(n).as_bytes())
}
