//! Single calls on the system, and the count of their faults.
ghost use Rattle.std.specs.Prelude.{◌≡◌, ◌<◌, ◌≤◌, ◌↔◌, IfErr, IfOk, IfSome, IsErr, IsNone};
ghost use Rattle.std.specs.Prelude.{Ok, OnErr, Some, length};
ghost use Rattle.std.specs.Io.KnownBytes.{ReadConsumes, WriteAppends};
ghost use Rattle.std.specs.IoError.{error_kind};
ghost use Rattle.run_io.specs.Fault.{one_more, HasCause};

use crate::Failed;
use std::io;
use std::io::{ErrorKind, Read, Write};

/// Counts the fault where the answer is one; the count stands still at its last number.
pub(crate) fn counted_answer<T>(answer: Result<T, Failed>, faults: &mut u64) -> Result<T, Failed>
    ensures answer { result ≡ answer }
    ensures cause { HasCause faults.old faults.new result }
    ensures counted { OnErr result (faults.new ≡ one_more faults.old) }
{
    if answer.is_err() {
        *faults = faults.saturating_add(1);
    }
    answer
}

/// One read, tried again where a signal interrupts it.
pub(crate) fn read_some<R: Read>(reader: &mut R, buf: &mut [u8]) -> Result<usize, Failed>
    ensures count { IfOk result (λ n. n ≤ length buf.old) }
    ensures bytes { ReadConsumes (R.remaining reader.old) (R.remaining reader.new) result buf.new }
{
    for _ in 0..u64::MAX {
        if let Some(answer) = settled_answer(reader.read(buf)) {
            return answer;
        }
    }
    Err(Failed)
}

/// One write, tried again where a signal interrupts it. One that takes nothing of a piece that
/// isn't empty has failed.
pub(crate) fn write_some<W: Write>(writer: &mut W, piece: &[u8]) -> Result<usize, Failed>
    ensures count { IfOk result (λ n. n ≤ length piece.now) }
    ensures some { IfOk result (λ n. 0 < length piece.now → 0 < n) }
    ensures bytes { WriteAppends (W.contents writer.old) (W.contents writer.new) result piece.now }
{
    for _ in 0..u64::MAX {
        if let Some(answer) = settled_answer(writer.write(piece)) {
            return match answer {
                Ok(0) if !piece.is_empty() => Err(Failed),
                answer => answer,
            };
        }
    }
    Err(Failed)
}

/// What the system answered, or nothing where a signal interrupted the call.
fn settled_answer<T>(answer: io::Result<T>) -> Option<Result<T, Failed>>
    ensures value { IfOk answer (λ value. result ≡ Some (Ok value)) }
    ensures fault { IsErr answer → IfSome result IsErr }
    ensures interrupted { IfErr answer
        (λ fault. IsNone result ↔ (error_kind fault ≡ ErrorKind.Interrupted)) }
{
    match answer {
        Ok(value) => Some(Ok(value)),
        Err(fault) if fault.kind() == ErrorKind::Interrupted => None,
        Err(_) => Some(Err(Failed)),
    }
}
