use super::*;
use sat_base::{Clause, Cube, Lit};
use std::alloc::{AllocError, Global};
use std::fmt::Write;
use std::process::Abort;
use std::test::Fail;

fn clause(alloc: Global, numbers: &[i32]) -> Result<Statement, AllocError> {
    let mut lits = Vec::new(alloc);
    for number in numbers {
        if let Some(lit) = Lit::of(*number) {
            lits.push(lit)?;
        }
    }
    Ok(Statement::Clause(Clause::from_lits(alloc, &lits)?))
}

fn cube(alloc: Global, numbers: &[i32]) -> Result<Statement, AllocError> {
    let mut lits = Vec::new(alloc);
    for number in numbers {
        if let Some(lit) = Lit::of(*number) {
            lits.push(lit)?;
        }
    }
    Ok(Statement::Cube(Cube::from_lits(alloc, &lits)?))
}

// Adds a line of text for what a piece gave.
fn tell(told: &mut String, fed: &Fed) -> Result<(), AllocError> {
    for numbered in fed.statements.items() {
        let line = numbered.line;
        let (kind, lits) = match &numbered.statement {
            Statement::Clause(clause) => ("c", clause.lits()),
            Statement::Cube(cube) => ("a", cube.lits()),
        };
        write!(told, "{line}{kind}")?;
        for lit in lits {
            let number = lit.number();
            write!(told, " {number}")?;
        }
        write!(told, ";")?;
    }
    Ok(())
}

// What a reader tells of a text in pieces of at most this many bytes.
fn told(alloc: Global, text: &[u8], size: usize) -> Result<String, AllocError> {
    let mut told = String::new(alloc);
    let mut reader = Reader::new(alloc);
    for piece in text.chunks(size.max(1)) {
        tell(&mut told, &reader.feed(piece)?)?;
    }
    let fed = reader.finish()?;
    tell(&mut told, &fed)?;
    if let Some(fault) = fed.fault {
        let line = fault.line;
        let reason = fault.reason;
        write!(told, "{line} {reason:?}")?;
    }
    Ok(told)
}

// A reader tells this of each text, however it is cut.
fn assert_told(alloc: Global, rt: &impl Abort, rows: &[(&[u8], &str)]) -> Result<(), AllocError> {
    for (text, wanted) in rows {
        for size in [1usize, 2, 3, 5, 100] {
            let told = told(alloc, text, size)?;
            assert_eq!(rt; told.as_str(), *wanted);
        }
    }
    Ok(())
}

#[test]
fn a_text_begins_with_its_header(rt: HostRuntime) -> Result<(), Fail> {
    let rows = [
        (b"".as_slice(), "1 Header"),
        (b"\n\n", "2 Header"),
        (b" \t\r", "1 Header"),
        (b"p", "1 Header"),
        (b"p\n", "1 Header"),
        (b"p\np inccnf\n", "1 Header"),
        (b"p cnf 1 1\n", "1 Header"),
        (b"p inccnfx\n", "1 Header"),
        (b"p inccn", "1 Header"),
        (b"inccnf p\n", "1 Header"),
        (b"\xff\n", "1 Header"),
        (b"p inccnf", ""),
        (b"\n c note\np inccnf 3 4\n", ""),
    ];
    assert_told(rt.alloc(), &rt, &rows)?;
    Ok(())
}

#[test]
fn statements_have_the_lines_of_their_first_tokens(rt: HostRuntime) -> Result<(), Fail> {
    let rows = [
        (
            b"p inccnf\n1 2 0\n-1 0\na -2 0\n".as_slice(),
            "2c 1 2;3c -1;4a -2;",
        ),
        (
            b"p inccnf\r\n1 2 \r\nc inside\r\n0 -1\t0\r\na -2 0\r\n",
            "2c 1 2;4c -1;5a -2;",
        ),
        (
            b"p inccnf\n2 1 2 -1 0 a 3 -3 0 0 a 0",
            "2c 1 -1 2;2a 3 -3;2c;2a;",
        ),
        (
            b"p inccnf\n1 0 a -8388607 8388607 0\n",
            "2c 1;2a 8388607 -8388607;",
        ),
        (
            b"p inccnf\n1 23 -456 0\n-78901 0\n0\n8388607 -8388607 0\n",
            "2c 1 23 -456;3c -78901;4c;5c 8388607 -8388607;",
        ),
        (b"p inccnf\n1 0\na 0\n2 3", "2c 1;3a;4 Unfinished"),
        (b"p inccnf\n1 0\na\n\n", "2c 1;4 Unfinished"),
    ];
    assert_told(rt.alloc(), &rt, &rows)?;
    Ok(())
}

#[test]
fn the_first_wrong_token_is_told_with_its_line(rt: HostRuntime) -> Result<(), Fail> {
    let rows = [
        (b"p inccnf\n8388608 0\n".as_slice(), "2 Variable"),
        (b"p inccnf\n1\n-8388608 0\n", "3 Variable"),
        (b"p inccnf\n99999999999999999999999999 0\n", "2 Variable"),
        (b"p inccnf\n1 0\n2 9999999 0\n", "2c 1;3 Variable"),
        (b"p inccnf\n1 0\n2 1234567x 0\n", "2c 1;3 Token"),
        (b"p inccnf\n1 0\n2 12345678x 0\n", "2c 1;3 Token"),
        (b"p inccnf\n01 0\n", "2 Token"),
        (b"p inccnf\n+5 0\n", "2 Token"),
        (b"p inccnf\n-0 0\n", "2 Token"),
        (b"p inccnf\n- 0\n", "2 Token"),
        (b"p inccnf\n1a 0\n", "2 Token"),
        (b"p inccnf\na1 0\n", "2 Token"),
        (b"p inccnf\na a 0\n", "2 Token"),
        (b"p inccnf\n1 a 2 0\n", "2 Token"),
        (b"p inccnf\n1 c 0\n", "2 Token"),
        (b"p inccnf\n1\n2 \x00 0\n", "3 Token"),
        (b"p inccnf\n1 0 p inccnf\n", "2c 1;2 Token"),
        (b"p inccnf\n1 0 8388608x 0\n", "2c 1;2 Token"),
    ];
    assert_told(rt.alloc(), &rt, &rows)?;
    Ok(())
}

#[test]
fn a_number_of_100000_digits_is_judged_by_its_size(rt: HostRuntime) -> Result<(), Fail> {
    let mut text = Vec::from_slice(rt.alloc(), b"p inccnf\n1 0 -")?;
    for _ in 0..10000 {
        text.extend_from_slice(b"1234567890")?;
    }
    text.extend_from_slice(b"\n")?;
    let told = told(rt.alloc(), &text, 1000)?;
    assert_eq!(rt; told.as_str(), "2c 1;2 Variable");
    Ok(())
}

#[test]
fn a_piece_gives_the_statements_that_it_ended(rt: HostRuntime) -> Result<(), Fail> {
    let mut reader = Reader::new(rt.alloc());
    let fed = reader.feed(b"p inccnf\n1 2 0\na -2")?;
    let wanted = Numbered {
        line: 2,
        statement: clause(rt.alloc(), &[1, 2])?,
    };
    assert!(rt; fed.statements.items().len() == 1);
    assert!(rt; fed.statements.items()[0] == wanted);
    assert!(rt; fed.fault.is_none());
    let fed = reader.feed(b" 0")?;
    assert!(rt; fed.statements.items().is_empty());
    let fed = reader.finish()?;
    let wanted = Numbered {
        line: 3,
        statement: cube(rt.alloc(), &[-2])?,
    };
    assert!(rt; fed.statements.items().len() == 1);
    assert!(rt; fed.statements.items()[0] == wanted);
    assert!(rt; fed.fault.is_none());
    Ok(())
}

#[test]
fn there_are_at_most_1048576_cubes(rt: HostRuntime) -> Result<(), Fail> {
    let mut reader = Reader::new(rt.alloc());
    let _ = reader.feed(b"p inccnf\n")?;
    let mut text = Vec::new(rt.alloc());
    for _ in 0..1048577u32 {
        text.extend_from_slice(b"a 0\n")?;
    }
    let fed = reader.feed(&text)?;
    assert!(rt; fed.statements.items().len() == 1048576);
    let wanted = Some(Fault {
        line: 1048578,
        reason: Reason::TooMany,
    });
    assert!(rt; fed.fault == wanted);
    let fed = reader.feed(b"1 0")?;
    assert!(rt; fed.statements.items().is_empty());
    assert!(rt; fed.fault == wanted);
    Ok(())
}

#[test]
fn statements_are_printed_one_on_a_line(rt: HostRuntime) -> Result<(), Fail> {
    let list = vec![in rt.alloc(); clause(rt.alloc(), &[1, 2])?, cube(rt.alloc(), &[-2])?]?;
    let text = print(rt.alloc(), &list)?;
    assert!(rt; text.as_slice() == b"p inccnf\n1 2 0\na -2 0\n".as_slice());
    let mut reader = Reader::new(rt.alloc());
    let fed = reader.feed(&text)?;
    assert!(rt; fed.statements.into_items().len() == 2);
    Ok(())
}
