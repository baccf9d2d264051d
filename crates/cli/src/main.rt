// lumas: compiles definitions, reads messages by them, shows tables and says what refusals mean.
// Results go to standard output, refusals and other messages to people to standard error.
#![tactic(auto)]

mod messages;
mod words;

use cli_files::{Failed, is_input, word};
use cli_pages::{flush, misused};
use cli_tables::{check_file, compile_file, show_file};
use messages::read_file;
use std::process::ExitCode;
use text::Page;
use words::{WORD, Words, count_words, short_word, words_of};

#[derive(Clone, Copy, PartialEq, Eq)]
enum Command {
    Compile,
    Read,
    Show,
    Check,
    Explain,
    Help,
    Version,
    Unknown,
}

fn explain(rt: HostRuntime, number: &[u8], page: &mut Page) -> Result<(), Failed> {
    let Some(n) = numbers::read_count(number) else {
        return Err(misused(rt, b"explain takes a number"));
    };
    if !cli_wording::is_refusal(n) {
        return Err(misused(rt, b"refusals have the numbers 1 to 11 and 20 to 30"));
    }
    cli_wording::put_explanation(page, n);
    flush(rt, page)
}

fn help(rt: HostRuntime, page: &mut Page) -> Result<(), Failed> {
    page.text(
        b"lumas reads messages by a definition of their format.

  lumas compile DEFINITION TABLE   compile a definition, and write its table to a file
  lumas read DEFINITION MESSAGE    read a message, and print a row for each value in it
  lumas read TABLE MESSAGE         the same by a table that was compiled before
  lumas read --plain ..            bare numbers: parameter, parent row, start, end, index
  lumas show TABLE                 print the records of a table, or of a definition
  lumas check TABLE                say whether some definition compiles to this table
  lumas check DEFINITION           say whether a definition compiles
  lumas explain NUMBER             say what a refusal's number means
  lumas help                       print this page
  lumas --version                  print the version
  lumas --unproved ..              the same, by a program built in seconds, without proofs

A file with a byte 0 in it is taken as a table, any other as a definition.
The name - is standard input, and -- ends the options.
A refusal names the file, the line and the column, counted from 1 (in a table the
byte, counted from 0), its number and what that means; then the line is printed,
with a ^ under the place. The end of a text is shown behind its last byte that is
no blank.
Rows, records and answers go to standard output, refusals and other messages to
standard error.
Exit status: 0 accepted; 1 refused; 2 wrong use, or a file can't be read or written.
",
    );
    flush(rt, page)
}

fn version(rt: HostRuntime, page: &mut Page) -> Result<(), Failed> {
    page.text(b"lumas 0.1.0\n");
    flush(rt, page)
}

fn command_of(word: &[u8]) -> Command {
    match word {
        b"compile" => Command::Compile,
        b"read" => Command::Read,
        b"show" => Command::Show,
        b"check" => Command::Check,
        b"explain" => Command::Explain,
        b"help" | b"--help" | b"-h" => Command::Help,
        b"--version" => Command::Version,
        _ => Command::Unknown,
    }
}

// A command on the file that argument i names.
fn with_one(rt: HostRuntime, command: Command, i: usize, page: &mut Page) -> Result<(), Failed> {
    let mut buf = io::buffer();
    let path = word(rt, i, &mut buf)?;
    match command {
        Command::Show => show_file(rt, path, page),
        Command::Check => check_file(rt, path, page),
        _ => explain(rt, path, page),
    }
}

// compile and read. One of the two files that are read can be standard input; a table is not written there.
fn with_paths(
    rt: HostRuntime,
    command: Command,
    from: &[u8],
    to: &[u8],
    is_plain: bool,
    page: &mut Page,
) -> Result<(), Failed> {
    if command == Command::Read {
        if is_input(from) && is_input(to) {
            return Err(misused(rt, b"only one of two files can be standard input"));
        }
        return read_file(rt, from, to, is_plain, page);
    }
    if is_input(to) {
        return Err(misused(rt, b"- is standard input, and the table needs a file"));
    }
    compile_file(rt, from, to, page)
}

// A command on the files that two words name.
fn with_two(
    rt: HostRuntime,
    command: Command,
    words: Words,
    page: &mut Page,
) -> Result<(), Failed> {
    let mut first = io::buffer();
    let mut second = io::buffer();
    let from = word(rt, words.first, &mut first)?;
    let to = word(rt, words.second, &mut second)?;
    with_paths(rt, command, from, to, words.is_plain, page)
}

fn run_on_words(
    rt: HostRuntime,
    command: Command,
    words: Words,
    page: &mut Page,
) -> Result<(), Failed> {
    match (command, words.count) {
        (Command::Compile | Command::Read, 2) => with_two(rt, command, words, page),
        (Command::Compile, _) => Err(misused(rt, b"compile takes two files")),
        (Command::Read, _) => Err(misused(rt, b"read takes two files")),
        (_, 1) => with_one(rt, command, words.first, page),
        _ => Err(misused(rt, b"show, check and explain take one word")),
    }
}

// A command that takes words and options.
fn run_with_options(
    rt: HostRuntime,
    command: Command,
    words: Words,
    page: &mut Page,
) -> Result<(), Failed> {
    if words.is_wrong {
        return Err(misused(rt, b"no such option"));
    }
    if words.is_plain && command != Command::Read {
        return Err(misused(rt, b"only read takes --plain"));
    }
    run_on_words(rt, command, words, page)
}

fn run_command(
    rt: HostRuntime,
    command: Command,
    count: usize,
    page: &mut Page,
) -> Result<(), Failed> {
    match command {
        Command::Help => help(rt, page),
        Command::Version => version(rt, page),
        Command::Unknown => Err(misused(rt, b"no such command")),
        _ => run_with_options(rt, command, words_of(rt, count), page),
    }
}

fn run(rt: HostRuntime, page: &mut Page) -> Result<(), Failed> {
    let count = count_words(rt);
    if count < 2 {
        return help(rt, page);
    }
    let mut buf = [0u8; WORD];
    run_command(rt, command_of(short_word(rt, 1, &mut buf)), count, page)
}

fn main(rt: HostRuntime) -> ExitCode {
    let mut out = io::large_buffer();
    let mut page = Page::new(&mut out);
    match run(rt, &mut page) {
        Ok(()) => ExitCode::SUCCESS,
        Err(Failed::Refused) => ExitCode::from(1),
        Err(Failed::Unusable) => ExitCode::from(2),
    }
}
