// Files and arguments, and a word on standard error where one can't be had.
#![tactic(auto)]

use std::env::{Env, FillError};
use std::fs::{File, OpenOptions};
use std::io::{Cursor, Error, ErrorKind, Read, Seek, SeekFrom, Write};
use std::{fs, str};
use text::Page;

// The system's numbers of errors that no call of it gives here.
const INVALID: i32 = 22;

const NAME_TOO_LONG: i32 = 36;

const NO_TEXT: i32 = 84;

// Why a command was not done; the person has been told.
#[derive(Clone, Copy, Debug, PartialEq, Eq)]
pub enum Failed {
    // A text, a table or a message was refused.
    Refused,
    // Wrong use, or a file can't be read or written.
    Unusable,
}

// ---- what failed

// Says on standard error what failed, and why. Where that fails there is nobody to tell.
pub fn fail(rt: HostRuntime, what: &[u8], error: Error) -> Failed {
    let mut said = Cursor::new([0u8; 256]);
    let _ = write!(said, "{error}");
    let n = said.position() as usize;
    let bytes = said.into_inner();
    let _ = Print::write_all(&rt.stderr(), what);
    let _ = rt.eprintln(format_args!(": {}", words(classes::part(&bytes, 0, n))));
    Failed::Unusable
}

// The system's words, without the number that std puts behind them.
fn words(said: &[u8]) -> &str {
    let text = str::from_utf8(said).unwrap_or("");
    match text.split_once(" (os error ") {
        Some((words, _)) => words,
        None => text,
    }
}

// ---- opening

// std names files by text alone.
fn name(path: &[u8]) -> Result<&str, Error> {
    match str::from_utf8(path) {
        Ok(text) => Ok(text),
        Err(_) => Err(Error::from_raw_os_error(NO_TEXT)),
    }
}

fn open_read(rt: HostRuntime, path: &[u8]) -> Result<File, Error> {
    fs::open(&rt, name(path)?)
}

fn open_append(rt: HostRuntime, path: &[u8]) -> Result<File, Error> {
    OpenOptions::new().append(true).open(&rt, name(path)?)
}

fn open_overwrite(rt: HostRuntime, path: &[u8]) -> Result<File, Error> {
    fs::create(&rt, name(path)?)
}

// Makes a file that is not there yet.
fn create(rt: HostRuntime, path: &[u8]) -> Result<File, Error> {
    OpenOptions::new()
        .write(true)
        .create_new(true)
        .open(&rt, name(path)?)
}

fn rename(rt: HostRuntime, from: &[u8], to: &[u8]) -> Result<(), Error> {
    fs::rename(&rt, name(from)?, name(to)?)
}

fn unlink(rt: HostRuntime, path: &[u8]) -> Result<(), Error> {
    fs::remove_file(&rt, name(path)?)
}

// ---- reading

// The name that stands for standard input.
pub fn is_input(path: &[u8]) -> bool {
    path == b"-".as_slice()
}

// Reads until the buffer is full or the file ends. A `while`, as n counts bytes that came and not elements in turn.
fn read_all<'a, R: Read>(file: &mut R, buf: &'a mut [u8]) -> Result<&'a [u8], Error> {
    let mut n = 0;
    while n < buf.len() {
        let more = file.read(&mut buf[n..])?;
        if more == 0 {
            break;
        }
        n += more;
    }
    Ok(&buf[..n])
}

fn read<'a>(rt: HostRuntime, path: &[u8], buf: &'a mut [u8]) -> Result<&'a [u8], Error> {
    if is_input(path) {
        return read_all(&mut rt.stdin(), buf);
    }
    let mut file = open_read(rt, path)?;
    read_all(&mut file, buf)
}

// A file's first bytes, as many as the buffer holds.
pub fn load<'a>(rt: HostRuntime, path: &[u8], buf: &'a mut [u8]) -> Result<&'a [u8], Failed> {
    read(rt, path, buf).map_err(|error| fail(rt, path, error))
}

// ---- writing

// Is there a file with bytes to lose? A pipe or a terminal has no end to go to, and is not read here.
pub fn has_bytes(rt: HostRuntime, path: &[u8]) -> bool {
    let Ok(mut file) = open_append(rt, path) else {
        return false;
    };
    file.seek(SeekFrom::End(0)).is_ok_and(|end| 0 < end)
}

// Writes the bytes, and waits until the system has them: std doesn't say whether closing a file went well. What is no
// file, as a pipe, has nothing to wait for.
fn write(file: &mut File, bytes: &[u8]) -> Result<(), Error> {
    file.write_all(bytes)?;
    match file.sync_all() {
        Err(error) if error.kind() != ErrorKind::InvalidInput => Err(error),
        _ => Ok(()),
    }
}

// Writes the bytes and closes.
fn fill(rt: HostRuntime, mut file: File, path: &[u8], bytes: &[u8]) -> Result<(), Failed> {
    write(&mut file, bytes).map_err(|error| fail(rt, path, error))
}

// The same for a file that was made just now: what is half written is removed.
fn fill_new(rt: HostRuntime, file: File, path: &[u8], bytes: &[u8]) -> Result<(), Failed> {
    let filled = fill(rt, file, path, bytes);
    if filled.is_err() {
        let _ = unlink(rt, path);
    }
    filled
}

// Writes a file beside the old one and gives it that one's name, so that the old one is there until the new one is whole.
fn replace(rt: HostRuntime, path: &[u8], bytes: &[u8]) -> Result<(), Failed> {
    let mut buf = io::buffer();
    let mut page = Page::new(&mut buf);
    page.text(path);
    page.text(b".new");
    let beside = page.into_written();
    let file = create(rt, beside).map_err(|error| fail(rt, beside, error))?;
    fill_new(rt, file, beside, bytes)?;
    let renamed = rename(rt, beside, path).map_err(|error| fail(rt, path, error));
    if renamed.is_err() {
        let _ = unlink(rt, beside);
    }
    renamed
}

// Writes the bytes to the file. Where that fails, what the file had is still there.
pub fn save(rt: HostRuntime, path: &[u8], bytes: &[u8]) -> Result<(), Failed> {
    if let Ok(file) = create(rt, path) {
        return fill_new(rt, file, path, bytes);
    }
    if has_bytes(rt, path) {
        return replace(rt, path, bytes);
    }
    let file = open_overwrite(rt, path).map_err(|error| fail(rt, path, error))?;
    fill(rt, file, path, bytes)
}

// ---- arguments

// The system's number of why an argument could not be had.
fn number_of(error: FillError) -> i32 {
    match error {
        FillError::TooLong => NAME_TOO_LONG,
        FillError::NotPresent => INVALID,
    }
}

// An argument, put into the buffer.
pub fn word<'a>(rt: HostRuntime, i: usize, buf: &'a mut [u8]) -> Result<&'a [u8], Failed> {
    match rt.arg(i, buf) {
        Ok(n) => Ok(classes::part(buf, 0, n)),
        Err(error) => Err(fail(rt, b"lumas", Error::from_raw_os_error(number_of(error)))),
    }
}
