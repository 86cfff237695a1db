//! Fields of an image: numbers of one, two or four bytes, the lowest first, and texts behind their length.
ghost use Rattle.std.specs.Prelude.{◌≡◌, ◌++◌, ◌<◌, OnOk, option_map, length};
ghost use Rattle.image_file.specs.Fields.{field, number_at, taken_at, text};

use byteorder::{ByteOrder, LittleEndian};
use ease_base::{NoMemory, Text};

/// Puts one byte at the end of `out`. Without memory `out` may have a part of what is put.
#[tactic(auto, unfolding(crate::specs::Fields::field))]
pub fn put_u8(out: &mut Text, n: u8) -> Result<(), NoMemory>
    ensures { OnOk result (out.new ≡ out.old ++ field 1 n) }
{
    out.extend(&[n])
}

/// Puts the two bytes of `n` at the end of `out`.
#[tactic(auto, unfolding(crate::specs::Fields::field))]
pub fn put_u16(out: &mut Text, n: u16) -> Result<(), NoMemory>
    ensures { OnOk result (out.new ≡ out.old ++ field 2 n) }
{
    let mut bytes = [0; 2];
    LittleEndian::write_u16(&mut bytes, n);
    out.extend(&bytes)
}

/// Puts the four bytes of `n` at the end of `out`.
#[tactic(auto, unfolding(crate::specs::Fields::field))]
pub fn put_u32(out: &mut Text, n: u32) -> Result<(), NoMemory>
    ensures { OnOk result (out.new ≡ out.old ++ field 4 n) }
{
    let mut bytes = [0; 4];
    LittleEndian::write_u32(&mut bytes, n);
    out.extend(&bytes)
}

/// Puts a text behind the lowest byte of its length; those of an image have fewer than 256 bytes.
#[tactic(auto, using(std::proofs::Common::append_assoc, crate::proofs::PutLemmas::lowest_byte))]
pub fn put_text(out: &mut Text, bytes: &[u8]) -> Result<(), NoMemory>
    ensures { OnOk result (out.new ≡ out.old ++ text.spell bytes.now) }
{
    put_u8(out, (bytes.len() % 256) as u8)?;
    out.extend(bytes)
}

/// The first byte, and the bytes behind it; None exactly where there is none.
pub fn split_u8(bytes: &[u8]) -> Option<(u8, &[u8])>
    ensures { option_map (λ p. (p.0, p.1.now)) result ≡ number_at 1 bytes.now }
{
    let (first, rest) = bytes.split_first()?;
    Some((*first, rest))
}

/// The number in the first two bytes, and the bytes behind it; None exactly where there are fewer.
#[tactic(auto, using(std::proofs::lemmas::List::take_rest))]
pub fn split_u16(bytes: &[u8]) -> Option<(u16, &[u8])>
    ensures { option_map (λ p. (p.0, p.1.now)) result ≡ number_at 2 bytes.now }
{
    if bytes.len() < 2 {
        return None;
    }
    Some((LittleEndian::read_u16(bytes), &bytes[2..]))
}

/// The number in the first four bytes, and the bytes behind it; None exactly where there are fewer.
#[tactic(auto, using(std::proofs::lemmas::List::take_rest))]
pub fn split_u32(bytes: &[u8]) -> Option<(u32, &[u8])>
    ensures { option_map (λ p. (p.0, p.1.now)) result ≡ number_at 4 bytes.now }
{
    if bytes.len() < 4 {
        return None;
    }
    Some((LittleEndian::read_u32(bytes), &bytes[4..]))
}

/// The first `n` bytes, and those behind them; None exactly where there are fewer.
#[tactic(auto, using(std::proofs::lemmas::List::take_rest))]
pub fn split_bytes(n: u8, bytes: &[u8]) -> Option<(&[u8], &[u8])>
    ensures { option_map (λ p. (p.0.now, p.1.now)) result ≡ taken_at n bytes.now }
{
    if bytes.len() < usize::from(n) {
        return None;
    }
    Some(bytes.split_at(usize::from(n)))
}

/// The text in front, and the bytes behind it; None exactly where they end before it does.
pub fn split_text(bytes: &[u8]) -> Option<(&[u8], &[u8])>
    ensures { option_map (λ p. (p.0.now, p.1.now)) result ≡ text.read bytes.now }
{
    let (n, bytes) = split_u8(bytes)?;
    split_bytes(n, bytes)
}
