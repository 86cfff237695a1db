//! Numbers as decimal digits, into an array or behind a text.
ghost use Rattle.std.specs.Prelude.{◌≡◌, ◌++◌, ◌<◌, ◌≤◌, take, drop, length, decimal, OnOk, OnErr};

use crate::error::NoMemory;
use crate::list::Text;

/// Writes the decimal digits of `n` at the front of `into`, and gives their number, 1 to 20.
pub fn digits(n: u64, into: &mut [u8; 20]) -> usize
    ensures count { result ≡ length (decimal n) }
    ensures within { result ≤ 20 }
    ensures written { take result into.new ≡ decimal n }
    ensures rest { drop result into.new ≡ drop result into.old }
{
    let mut behind = [0; 20];
    let start = digits_at_end(n, &mut behind);
    let count = 20 - start;
    into[..count].copy_from_slice(&behind[start..]);
    count
}

// Writes the digits so that they end with the array, and gives where they start. The last digit is the first known.
fn digits_at_end(n: u64, into: &mut [u8; 20]) -> usize
    ensures within { result < 20 }
    ensures written { drop result into.new ≡ decimal n }
{
    let mut start = 20;
    let mut left = n;
    while left >= 10 {
        start -= 1;
        into[start] = b'0' + (left % 10) as u8;
        left /= 10;
    }
    into[start - 1] = b'0' + left as u8;
    start - 1
}

/// Puts the decimal digits of `n` at the end of `out`. Without memory `out` is as before.
pub fn put_number(out: &mut Text, n: u64) -> Result<(), NoMemory>
    ensures ok { OnOk result (out.new ≡ out.old ++ decimal n) }
    ensures err { OnErr result (out.new ≡ out.old) }
{
    let mut text = [0; 20];
    let count = digits(n, &mut text);
    out.extend(&text[..count])?;
    Ok(())
}
