//! Reading a source.

ghost use Rattle.std.specs.Prelude.{◌≡◌, ◌<◌, ◌≤◌, ◌⊎◌, ◌++◌, ℕ, List, true, false, length, IfOk};
ghost use Rattle.std.specs.Prelude.{MatchResult};
ghost use Rattle.run_io.specs.Bytes.{followed_by, IsEmptyWhereTold};
ghost use Rattle.audit_run.specs.Run.{IsReadFault};

use run_io::{Failed, Source};
use std::alloc::{AllocError, Global};

// One byte more than a text or an output may have.
const MOST_BYTES: usize = 4_294_967_297;

// The bytes asked of one read.
const PIECE: usize = 65_536;

/// Why a source was not read.
#[derive(Clone, Copy, Debug, PartialEq, Eq)]
pub(crate) enum ReadFault {
    Failed,
    Memory,
}

impl From<Failed> for ReadFault {
    ghost use Rattle.std.specs.Prelude.{◌≡◌};
    ghost use Rattle.audit_run.specs.declared.input.ReadFault.TheVariants as fault;

    ghost from_gives = { λ _ e. e ≡ fault.Failed };

    fn from(_: Failed) -> ReadFault {
        ReadFault::Failed
    }
}

impl From<AllocError> for ReadFault {
    ghost use Rattle.std.specs.Prelude.{◌≡◌};
    ghost use Rattle.audit_run.specs.declared.input.ReadFault.TheVariants as fault;

    ghost from_gives = { λ _ e. e ≡ fault.Memory };

    fn from(_: AllocError) -> ReadFault {
        ReadFault::Memory
    }
}

// A buffer of so many bytes.
fn buffer(alloc: Global, len: usize) -> Result<Vec<u8>, AllocError>
    ensures { IfOk result (λ buffer. length buffer.items ≡ len) }
{
    vec![in alloc; 0u8; len]
}

// Adds what one read gives, and says whether it found the end.
fn read_piece<S: Source>(
    alloc: Global,
    source: &mut S,
    text: &mut Vec<u8>,
    room: usize,
) -> Result<bool, ReadFault>
    requires room { 0 < room }
    requires unread { S.ended source.old ≡ false }
    ensures bytes { IfOk result
        (λ _. (bytes : List ℕ) × (text.new.items ≡ text.old.items ++ bytes) × (length bytes ≤ room)
        × (S.left source.old ≡ followed_by bytes (S.left source.new))) }
    ensures ended { IfOk result (λ end. S.ended source.new ≡ end) }
    ensures whole { IfOk result (λ end. end ≡ true → IsEmptyWhereTold (S.left source.new)) }
    ensures cause { MatchResult result (λ _. S.faults source.new ≡ S.faults source.old)
        (λ fault. IsReadFault fault (S.faults source.old) (S.faults source.new)) }
    ensures more { IfOk result
        (λ end. end ≡ false → length text.old.items < length text.new.items) }
{
    let mut piece = buffer(alloc, room)?;
    let count = source.read(&mut piece)?;
    text.extend_from_slice(&piece[..count])?;
    Ok(count == 0)
}

/// Starts the source with this name and reads it to its end, or up to one byte more than a text or
/// an output may have.
pub(crate) fn read_source<S: Source>(
    alloc: Global,
    name: &str,
    source: &mut S,
) -> Result<Vec<u8>, ReadFault>
    requires { S.ended source.old ≡ false }
    ensures bytes { IfOk result
        (λ text. S.left source.old ≡ followed_by text.items (S.left source.new)) }
    ensures enough { IfOk result
        (λ text. (S.ended source.new ≡ true) ⊎ (length text.items ≡ 4294967297)) }
    ensures whole { IfOk result
        (λ _. S.ended source.new ≡ true → IsEmptyWhereTold (S.left source.new)) }
    ensures cause { MatchResult result (λ _. S.faults source.new ≡ S.faults source.old)
        (λ fault. IsReadFault fault (S.faults source.old) (S.faults source.new)) }
{
    source.start(Some(name))?;
    let mut text = Vec::new(alloc);
    while text.len() < MOST_BYTES {
        let room = PIECE.min(MOST_BYTES - text.len());
        if read_piece(alloc, source, &mut text, room)? {
            return Ok(text);
        }
    }
    Ok(text)
}
