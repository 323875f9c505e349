//! The whole run.

ghost use Rattle.std.specs.Prelude.{◌≡◌, ◌≢◌, ◌<◌, ◌≤◌, ◌⊎◌, ◌↔◌, false, length, IfOk, MatchResult};
ghost use Rattle.run_io.specs.Fault.{last_count};
ghost use Rattle.audit_run.specs.Run.{Broke, Found, Told};
ghost use Rattle.verdict_audit.specs.declared.findings.Finding.{Finding};

use crate::input::{ReadFault, read_source};
use crate::telling::tell;
use run_io::{Sink, Source};
use std::alloc::Global;
use verdict_audit::{Finding, audit};

const WORDS_REFUSED: u8 = 5;

const SOURCE_FAILED: u8 = 3;

const NO_MEMORY: u8 = 6;

// Reads both sources and audits what they gave.
fn find<S: Source, T: Source>(
    alloc: Global,
    text_name: &str,
    output_name: &str,
    icnf: &mut S,
    output: &mut T,
) -> Result<Finding, ReadFault>
    requires icnf_faults { S.faults icnf.old < last_count }
    requires output_faults { T.faults output.old < last_count }
    requires icnf_unread { S.ended icnf.old ≡ false }
    requires output_unread { T.ended output.old ≡ false }
    ensures found { IfOk result
        (λ finding. Found (S.left icnf.old) (S.left icnf.new) (S.ended icnf.new)
        (T.left output.old) (T.left output.new) (T.ended output.new) finding) }
    ensures cause { MatchResult result
        (λ _. (S.faults icnf.new ≡ S.faults icnf.old)
        × (T.faults output.new ≡ T.faults output.old)) (λ fault. Broke fault (S.faults icnf.old)
        (S.faults icnf.new) (T.faults output.old) (T.faults output.new)) }
    ensures later_icnf { S.faults icnf.old ≤ S.faults icnf.new }
    ensures later_output { T.faults output.old ≤ T.faults output.new }
{
    let text = read_source(alloc, text_name, icnf)?;
    let shown = read_source(alloc, output_name, output)?;
    let finding = audit(alloc, &text, &shown)?;
    Ok(finding)
}

/// The whole of `tarmo_audit` but for making the real things: audits the output that the second
/// source gives under the second word, for the iCNF text that the first one gives under the first
/// word, and writes `good P U` or `bad LINE REASON`.
///
/// The status is 5 where there aren't two words, and then nothing is read or written; 3 where a
/// source failed; 4 where the sink failed; 6 where memory ran out; otherwise 1 where the output is
/// bad and 0 where it is good. The run stops at its first fault. A source is read to its end, and
/// then nothing of it is left, or up to the first byte behind the greatest length.
pub fn audit_run<S: Source, T: Source, O: Sink>(
    alloc: Global,
    words: &[String],
    icnf: &mut S,
    output: &mut T,
    out: &mut O,
) -> u8
    requires icnf_faults { S.faults icnf.old < last_count }
    requires output_faults { T.faults output.old < last_count }
    requires sink_faults { O.faults out.old < last_count }
    requires icnf_unread { S.ended icnf.old ≡ false }
    requires output_unread { T.ended output.old ≡ false }

    ensures words { (result ≡ 5) ↔ (length words.now ≢ 2) }
    ensures untouched { length words.now ≢ 2
        → (icnf.new ≡ icnf.old) × (output.new ≡ output.old) × (out.new ≡ out.old) }
    ensures run { length words.now ≡ 2 →
        ((finding : Finding)
        × Found (S.left icnf.old) (S.left icnf.new) (S.ended icnf.new) (T.left output.old)
        (T.left output.new) (T.ended output.new) finding
        × Told finding (O.taken out.old) (O.taken out.new) result)
        ⊎ (((result ≡ 3) ⊎ (result ≡ 6)) × (O.taken out.new ≡ O.taken out.old)) }

    ensures sink { (result ≡ 4) ↔ (O.faults out.old < O.faults out.new) }
    ensures sources { (result ≡ 3)
        ↔ ((S.faults icnf.old < S.faults icnf.new) ⊎ (T.faults output.old < T.faults output.new)) }
    ensures counts { (S.faults icnf.old ≤ S.faults icnf.new)
        × (T.faults output.old ≤ T.faults output.new) × (O.faults out.old ≤ O.faults out.new) }
{
    if words.len() != 2 {
        return WORDS_REFUSED;
    }
    match find(alloc, &words[0], &words[1], icnf, output) {
        Ok(finding) => tell(alloc, finding, out),
        Err(ReadFault::Failed) => SOURCE_FAILED,
        Err(ReadFault::Memory) => NO_MEMORY,
    }
}
