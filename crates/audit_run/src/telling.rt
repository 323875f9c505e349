//! The line of a finding.

ghost use Rattle.std.specs.Prelude.{◌≡◌, ◌<◌, ◌≤◌, ◌↔◌, codes, decimal, ◌++◌, ℕ, take, IfOk, OnErr};
ghost use Rattle.std.specs.Prelude.{OnOk};
ghost use Rattle.run_io.specs.Bytes.{appended};
ghost use Rattle.run_io.specs.Fault.{HasCause, last_count};
ghost use Rattle.audit_run.specs.Run.{Told, line_text, status_of, flaw_word};

use line_tokens::print_number;
use run_io::{Failed, Sink, write_all};
use std::alloc::{AllocError, Global};
use verdict_audit::{Finding, Flaw};

const SINK_FAILED: u8 = 4;

const NO_MEMORY: u8 = 6;

fn word_of(flaw: Flaw) -> &'static [u8]
    ensures { result.now ≡ flaw_word flaw }
{
    match flaw {
        Flaw::TooLong => b"too-long",
        Flaw::Form => b"form",
        Flaw::Number => b"number",
        Flaw::Model => b"model",
        Flaw::Part => b"part",
        Flaw::Trace => b"trace",
        Flaw::Last => b"last",
    }
}

// Adds `good P U`, without its line feed.
fn print_good(out: &mut Vec<u8>, proved: u32, unproved: u32) -> Result<(), AllocError>
    ensures { OnOk result
        (out.new.items
        ≡ out.old.items ++ (codes "good " ++ decimal proved ++ codes " " ++ decimal unproved)) }
{
    out.extend_from_slice(b"good ")?;
    print_number(out, proved as u64)?;
    out.extend_from_slice(b" ")?;
    print_number(out, unproved as u64)
}

// Adds `bad LINE REASON`, without its line feed.
fn print_bad(out: &mut Vec<u8>, line: u64, flaw: Flaw) -> Result<(), AllocError>
    ensures { OnOk result
        (out.new.items
        ≡ out.old.items ++ (codes "bad " ++ decimal line ++ codes " " ++ flaw_word flaw)) }
{
    out.extend_from_slice(b"bad ")?;
    print_number(out, line)?;
    out.extend_from_slice(b" ")?;
    out.extend_from_slice(word_of(flaw))?;
    Ok(())
}

// The line of a finding.
fn line_of(alloc: Global, finding: Finding) -> Result<Vec<u8>, AllocError>
    ensures { IfOk result (λ line. line.items ≡ line_text finding) }
{
    let mut line = Vec::new(alloc);
    match finding {
        Finding::Good { proved, unproved } => print_good(&mut line, proved, unproved)?,
        Finding::Bad(number, flaw) => print_bad(&mut line, number, flaw)?,
    }
    line.extend_from_slice(b"\n")?;
    Ok(line)
}

fn status_of(finding: Finding) -> u8
    ensures { result ≡ status_of finding }
{
    match finding {
        Finding::Good { .. } => 0,
        Finding::Bad(_, _) => 1,
    }
}

fn write_line<O: Sink>(out: &mut O, line: &[u8]) -> Result<(), Failed>
    ensures whole { OnOk result (O.taken out.new ≡ appended (O.taken out.old) line.now) }
    ensures front { OnErr result
        ((size : ℕ) × (O.taken out.new ≡ appended (O.taken out.old) (take size line.now))) }
    ensures cause { HasCause (O.faults out.old) (O.faults out.new) result }
{
    write_all(out, line)?;
    out.flush()
}

/// Writes the line of a finding and answers the status.
pub(crate) fn tell<O: Sink>(alloc: Global, finding: Finding, out: &mut O) -> u8
    requires { O.faults out.old < last_count }
    ensures told { Told finding (O.taken out.old) (O.taken out.new) result }
    ensures sink { (result ≡ 4) ↔ (O.faults out.old < O.faults out.new) }
    ensures later { O.faults out.old ≤ O.faults out.new }
{
    let Ok(line) = line_of(alloc, finding) else {
        return NO_MEMORY;
    };
    match write_line(out, &line) {
        Ok(()) => status_of(finding),
        Err(Failed) => SINK_FAILED,
    }
}
