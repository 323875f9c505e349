//! Pieces that are given or taken in parts.
ghost use Rattle.std.specs.Prelude.{◌≡◌, ◌<◌, ℕ, length, take, OnErr, OnOk};
ghost use Rattle.run_io.specs.Bytes.{appended, is_end_at};
ghost use Rattle.run_io.specs.Fault.{HasCause};

use crate::{Failed, Sink};

/// Writes the whole piece, by as many writes as the sink needs. An empty piece needs none.
///
/// # Errors
///
/// `Failed` of the first write that failed. Nothing is written after it, so a proper front of the
/// piece was taken.
pub fn write_all<O: Sink>(out: &mut O, piece: &[u8]) -> Result<(), Failed>
    ensures whole { OnOk result (O.taken out.new ≡ appended (O.taken out.old) piece.now) }
    ensures front { OnErr result ((n : ℕ) × (n < length piece.now)
        × (O.taken out.new ≡ appended (O.taken out.old) (take n piece.now))) }
    ensures cause { HasCause (O.faults out.old) (O.faults out.new) result }
{
    let mut at = 0;
    while at < piece.len() {
        at += out.write(&piece[at..])?;
    }
    Ok(())
}

/// Whether a read that gave so many bytes into this much room has found the end.
pub(crate) fn finds_end(count: usize, room: usize) -> bool
    ensures { result ≡ is_end_at count room }
{
    count == 0 && room > 0
}
