//! Words as a command line gives them.

use crate::{Command, WordsFault, Work, read_words, usage};
use std::alloc::{AllocError, Global};
use std::process::Abort;
use std::test::Fail;

// Words, and what they ask for.
#[derive(Clone, Copy)]
struct Row<'a> {
    words: &'a [&'a str],
    workers: u32,
    conflicts: u64,
    attempts: u32,
    first: bool,
    trace: bool,
    sum: Option<u64>,
    file: Option<&'a str>,
}

// No words.
const PLAIN: Row<'static> = Row {
    words: &[],
    workers: 4,
    conflicts: 18_446_744_073_709_551_615,
    attempts: 1,
    first: false,
    trace: false,
    sum: None,
    file: None,
};

const NUMBERS: [Row<'static>; 11] = [
    Row {
        words: &["--workers", "1"],
        workers: 1,
        ..PLAIN
    },
    Row {
        words: &["--workers=8"],
        workers: 8,
        ..PLAIN
    },
    Row {
        words: &["--workers", "64"],
        workers: 64,
        ..PLAIN
    },
    Row {
        words: &["--workers", "08"],
        workers: 8,
        ..PLAIN
    },
    Row {
        words: &["--workers", "+8"],
        workers: 8,
        ..PLAIN
    },
    Row {
        words: &["--conflicts", "1"],
        conflicts: 1,
        ..PLAIN
    },
    Row {
        words: &["--conflicts=18446744073709551615"],
        ..PLAIN
    },
    Row {
        words: &["--attempts", "64"],
        attempts: 64,
        ..PLAIN
    },
    Row {
        words: &["--sum", "0"],
        sum: Some(0),
        ..PLAIN
    },
    Row {
        words: &["--sum=18446744073709551615", "--workers", "2"],
        workers: 2,
        sum: Some(18_446_744_073_709_551_615),
        ..PLAIN
    },
    Row {
        words: &["--attempts", "2", "--trace", "--conflicts", "7"],
        conflicts: 7,
        attempts: 2,
        trace: true,
        ..PLAIN
    },
];

const FILES: [Row<'static>; 9] = [
    PLAIN,
    Row {
        words: &["--"],
        ..PLAIN
    },
    Row {
        words: &["--", "name"],
        file: Some("name"),
        ..PLAIN
    },
    Row {
        words: &["--", "--help"],
        file: Some("--help"),
        ..PLAIN
    },
    Row {
        words: &["help"],
        file: Some("help"),
        ..PLAIN
    },
    Row {
        words: &["-"],
        file: Some("-"),
        ..PLAIN
    },
    Row {
        words: &[""],
        file: Some(""),
        ..PLAIN
    },
    Row {
        words: &["--workers", "5", "5"],
        workers: 5,
        file: Some("5"),
        ..PLAIN
    },
    Row {
        words: &["--first", "--workers=2", "a name", "--trace"],
        workers: 2,
        first: true,
        trace: true,
        file: Some("a name"),
        ..PLAIN
    },
];

const REFUSED: [&[&str]; 31] = [
    &["--workers", "0"],
    &["--workers", "65"],
    &["--workers", "-1"],
    &["--workers", "-0"],
    &["--workers", "4294967297"],
    &["--workers"],
    &["--workers="],
    &["--workers", "--first"],
    &["--workers", "2", "--workers", "2"],
    &["--workers=2", "--workers=2"],
    &["--wor", "8"],
    &["-w", "8"],
    &["--conflicts", "0"],
    &["--conflicts", "18446744073709551616"],
    &["--conflicts", "1e1"],
    &["--conflicts", ""],
    &["--conflicts", "--"],
    &["--attempts", "65"],
    &["--attempts", "1", "--attempts", "1"],
    &["--sum"],
    &["--sum", "x"],
    &["--sum", "1", "--sum", "1"],
    &["--first", "--first"],
    &["--first=true"],
    &["--trace", "--trace"],
    &["--fast"],
    &["--help"],
    &["-h"],
    &["--version"],
    &["name", "name"],
    &["name", "--", "--trace"],
];

// With a sum there are no words on a text.
const BROKEN: [&[&str]; 6] = [
    &["--sum", "1", "name"],
    &["--sum", "1", "--", "name"],
    &["--first", "--sum", "1"],
    &["--sum", "1", "--trace"],
    &["--sum=1", "--conflicts=5"],
    &["--sum", "1", "--attempts", "1"],
];

fn owned(alloc: Global, words: &[&str]) -> Result<Vec<String>, AllocError> {
    let mut all = Vec::new(alloc);
    for word in words {
        all.push(String::from_str(alloc, word)?)?;
    }
    Ok(all)
}

// What the words are read as.
fn read(alloc: Global, words: &[&str]) -> Result<Result<Command, WordsFault>, AllocError> {
    Ok(read_words(alloc, &owned(alloc, words)?))
}

fn assert_accepted(alloc: Global, rt: &impl Abort, row: &Row) -> Result<(), AllocError> {
    let Ok(command) = read(alloc, row.words)? else {
        panic!(rt; "refused: {:?}", row.words);
    };
    assert_eq!(rt; command.workers, row.workers, "{:?}", row.words);
    assert_eq!(rt; command.conflicts, row.conflicts, "{:?}", row.words);
    assert_eq!(rt; command.attempts, row.attempts, "{:?}", row.words);
    assert_eq!(rt; command.first, row.first, "{:?}", row.words);
    assert_eq!(rt; command.trace, row.trace, "{:?}", row.words);
    match &command.work {
        Work::Sum(number) => assert_eq!(rt; Some(*number), row.sum, "{:?}", row.words),
        Work::Text(name) => {
            assert_eq!(rt; None, row.sum, "{:?}", row.words);
            assert_eq!(rt; name.as_deref(), row.file, "{:?}", row.words);
        }
    }
    Ok(())
}

fn assert_refused(alloc: Global, rt: &impl Abort, words: &[&str]) -> Result<(), AllocError> {
    match read(alloc, words)? {
        Err(WordsFault::Refused) => Ok(()),
        _ => panic!(rt; "not refused: {words:?}"),
    }
}

#[test]
fn accepted_words_give_their_numbers(rt: HostRuntime) -> Result<(), Fail> {
    for row in &NUMBERS {
        assert_accepted(rt.alloc(), &rt, row)?;
    }
    Ok(())
}

#[test]
fn accepted_words_give_the_file(rt: HostRuntime) -> Result<(), Fail> {
    for row in &FILES {
        assert_accepted(rt.alloc(), &rt, row)?;
    }
    Ok(())
}

#[test]
fn other_words_are_refused(rt: HostRuntime) -> Result<(), Fail> {
    for words in &REFUSED {
        assert_refused(rt.alloc(), &rt, words)?;
    }
    Ok(())
}

#[test]
fn a_sum_stands_without_words_on_a_text(rt: HostRuntime) -> Result<(), Fail> {
    for words in &BROKEN {
        assert_refused(rt.alloc(), &rt, words)?;
    }
    Ok(())
}

#[test]
fn faults_have_their_messages(rt: HostRuntime) -> Result<(), Fail> {
    let alloc = rt.alloc();
    let refused = format!(in alloc; "{}", WordsFault::Refused)?;
    assert!(rt; refused.as_str() == "tarmo: words refused");
    let memory = format!(in alloc; "{}", WordsFault::Memory)?;
    assert!(rt; memory.as_str() == "tarmo: no memory");
    Ok(())
}

const USAGE: &str = "\
Usage: tarmo [OPTIONS] [FILE]

Arguments:
  [FILE]  Read jobs in iCNF from FILE [default: standard input]

Options:
      --workers <N>    Solve with N workers, 1 to 64 [default: 4]
      --conflicts <B>  Learn at most B clauses an attempt, 1 to 18446744073709551615, the default
      --attempts <A>   Make at most A attempts at a job, 1 to 64 [default: 1]
      --first          Give up the jobs behind the first one with a model
      --trace          Write a derivation below each refuted job
      --sum <N>        Sum up the jobs generated for N, 0 to 18446744073709551615

Beside --sum only --workers may stand.
docs/FORMATS.md describes the text that is read and the output.
";

#[test]
fn the_usage_text_has_each_word(rt: HostRuntime) -> Result<(), Fail> {
    let text = usage(rt.alloc())?;
    assert_eq!(rt; text.as_str(), USAGE);
    assert!(rt; text.lines().count() <= 15);
    Ok(())
}
