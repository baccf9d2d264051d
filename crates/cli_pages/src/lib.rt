// What goes to standard output and to standard error.
#![tactic(auto)]

ghost use Rattle.std.specs.Prelude.{◌≤◌, length};

use cli_files::{Failed, fail};
use cli_report::{Source, put_refusal};
use numbers::Refusal;
use text::Page;

// A file is read up to as many bytes: more than a definition, a table or a message can have.
const ROOM: usize = 65_536;

// What waits is written out once it has as many bytes. The longest line, of a row of 16,384 bytes,
// fits behind them.
pub const MANY: usize = 32_768;

// ---- results, to standard output

// Writes out all that waits.
pub fn flush(rt: HostRuntime, page: &mut Page) -> Result<(), Failed> {
    let written = rt.write_all(page.written());
    page.at = 0;
    written.map_err(|error| fail(rt, b"lumas", error))
}

// The same, if it is much.
pub fn flush_if_many(rt: HostRuntime, page: &mut Page) -> Result<(), Failed> {
    if page.at < MANY {
        return Ok(());
    }
    flush(rt, page)
}

// ---- messages to people, to standard error

// Writes out all that waits. Where that fails there is nobody to tell, and the status stays.
pub fn say(rt: HostRuntime, page: &mut Page) {
    let _ = rt.stderr().write_all(page.written());
    page.at = 0;
}

// No file's bytes are more than a buffer holds, so that none are left out here.
fn within_room<'a>(source: &Source<'a>) -> Source<'a>
    ensures { length result.bytes.now ≤ 65536 }
{
    Source {
        path: source.path,
        bytes: classes::part(source.bytes, 0, ROOM),
    }
}

pub fn refuse(rt: HostRuntime, page: &mut Page, source: &Source, refusal: Refusal) -> Failed {
    let source = within_room(source);
    put_refusal(page, &source, refusal.rule.number(), refusal.place);
    say(rt, page);
    Failed::Refused
}

// Says that an item of a message is unknown, which begins at a place; its word is its tag.
pub fn say_unknown(rt: HostRuntime, page: &mut Page, source: &Source, place: usize, word: &[u8]) {
    let source = within_room(source);
    let place = place.min(source.bytes.len());
    cli_report::put_unknown(page, &source, place, word);
    say(rt, page);
}

// What keeps a command from being done.
pub fn unusable(rt: HostRuntime, what: &[u8], why: &[u8]) -> Failed {
    let _ = rt.stderr().write_all(what);
    let _ = rt.stderr().write_all(why);
    Failed::Unusable
}

// Something is wrong with the command itself.
pub fn misused(rt: HostRuntime, what: &[u8]) -> Failed {
    let _ = rt.stderr().write_all(b"lumas: ");
    unusable(rt, what, b"; lumas help says how it is used\n")
}
