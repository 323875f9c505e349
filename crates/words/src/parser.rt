//! The command line, as the parser of command lines is told of it.
ghost use Rattle.std.specs.Prelude.{◌≡◌, IfOk, false, pos};
ghost use Rattle.clap.specs.Words.{app_of, rule_of};
ghost use Rattle.clap.specs.declared.builder.value_parser.ValueParser.{ValueParser};
ghost use Rattle.clap.specs.declared.builder.value_parser.ValueParser.TheVariants as values;
ghost use Rattle.words.specs.Parser.{app, bare_app, file_rule, flag_rule, option_rule};

use clap::builder::ValueParser;
use clap::{Arg, ArgAction, Command, value_parser};
use std::alloc::{AllocError, Global};

const NOTES: &str = "\
Beside --sum only --workers may stand.
docs/FORMATS.md describes the text that is read and the output.";

/// The command line of `tarmo`. It has no word for help: such a word is refused as any other.
pub(crate) fn parser<'a>(alloc: Global) -> Result<Command<'a>, AllocError>
    ensures { IfOk result (λ command. app_of command ≡ app) }
{
    bare(alloc)
        .arg(number(
            alloc,
            "workers",
            "N",
            few(),
            "Solve with N workers, 1 to 64 [default: 4]",
        ))?
        .arg(number(
            alloc,
            "conflicts",
            "B",
            many(),
            "Learn at most B clauses an attempt, 1 to 18446744073709551615, the default",
        ))?
        .arg(number(
            alloc,
            "attempts",
            "A",
            few(),
            "Make at most A attempts at a job, 1 to 64 [default: 1]",
        ))?
        .arg(flag(
            alloc,
            "first",
            "Give up the jobs behind the first one with a model",
        ))?
        .arg(flag(alloc, "trace", "Write a derivation below each refuted job"))?
        .arg(number(
            alloc,
            "sum",
            "N",
            any(),
            "Sum up the jobs generated for N, 0 to 18446744073709551615",
        ))?
        .arg(file(alloc))
}

/// The usage text: each word with its range and its default.
///
/// # Errors
///
/// `AllocError` where memory ran out.
pub fn usage(alloc: Global) -> Result<String, AllocError> {
    parser(alloc)?.render_help()
}

// The command line without its arguments.
fn bare<'a>(alloc: Global) -> Command<'a>
    ensures { app_of result ≡ bare_app }
{
    Command::new(alloc, "tarmo")
        .no_binary_name(true)
        .disable_help_flag(true)
        .after_help(NOTES)
}

// An option with a number, which the usage text names `value`.
fn number<'a>(
    alloc: Global,
    name: &'a str,
    value: &'a str,
    values: ValueParser<'a>,
    help: &'a str,
) -> Arg<'a>
    ensures rule { rule_of result ≡ option_rule name.entry.now values.entry }
    ensures local { result.global ≡ false }
{
    Arg::new(alloc, name)
        .long(name)
        .action(ArgAction::Set)
        .value_parser(values)
        .value_name(value)
        .help(help)
}

fn flag<'a>(alloc: Global, name: &'a str, help: &'a str) -> Arg<'a>
    ensures rule { rule_of result ≡ flag_rule name.entry.now }
    ensures local { result.global ≡ false }
{
    Arg::new(alloc, name)
        .long(name)
        .action(ArgAction::SetTrue)
        .help(help)
}

fn file<'a>(alloc: Global) -> Arg<'a>
    ensures rule { rule_of result ≡ file_rule }
    ensures local { result.global ≡ false }
{
    Arg::new(alloc, "file")
        .value_name("FILE")
        .help("Read jobs in iCNF from FILE [default: standard input]")
}

// 1 to 64.
fn few<'a>() -> ValueParser<'a>
    ensures { result ≡ values.Signed (pos 1) (pos 64) }
{
    value_parser!(u32).range(1..=64)
}

// Each number of 64 bits but 0.
fn many<'a>() -> ValueParser<'a>
    ensures { result ≡ values.Unsigned 1 18446744073709551615 }
{
    value_parser!(u64).range(1..)
}

// Each number of 64 bits.
fn any<'a>() -> ValueParser<'a>
    ensures { result ≡ values.Unsigned 0 18446744073709551615 }
{
    value_parser!(u64)
}
