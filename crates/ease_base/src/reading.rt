//! Reads a file's bytes to their end, piece by piece, as far as they may go.
ghost use Rattle.std.specs.Prelude.{◌≡◌, ◌+◌, ◌<◌, ◌≤◌, [], length, vec_len, OnOk, IsErrOf};
ghost use Rattle.ease_base.specs.Reading.{ReadsAll, ReadsFront};

use crate::error::FetchError;
use std::io::Read;

/// The bytes that are read at once.
const PIECE: usize = 4096;

/// Puts what `reader` has left into the empty `into`, at most `limit` bytes of it and one more. `Failed` is an error
/// of the reader.
#[tactic(auto, using(crate::proofs::ReadingLemmas::read_none, crate::proofs::ReadingLemmas::read_twice, crate::proofs::ReadingLemmas::read_all, crate::proofs::ReadingLemmas::read_front))]
pub fn read_within<R: Read>(
    reader: &mut R,
    limit: usize,
    into: &mut Vec<u8>,
) -> Result<(), FetchError>
    requires empty { into.old.items ≡ [] }
    requires limited { limit < 4294967295 }
    ensures fits { OnOk result (vec_len into.new ≤ limit) }
    ensures whole { OnOk result (ReadsAll (R.remaining reader.old) into.new.items) }
    ensures one_more { IsErrOf result FetchError.TooLong → vec_len into.new ≡ limit + 1 }
    ensures front { IsErrOf result FetchError.TooLong → ReadsFront (R.remaining reader.old) limit into.new.items }
{
    let mut piece = [0; PIECE];
    while into.len() <= limit {
        let most = piece.len().min(limit + 1 - into.len());
        let Ok(count) = reader.read(&mut piece[..most]) else {
            return Err(FetchError::Failed);
        };
        if count == 0 {
            return Ok(());
        }
        into.extend_from_slice(&piece[..count])?;
    }
    Err(FetchError::TooLong)
}
