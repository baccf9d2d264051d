// Numbers in words, and the lines that say how a file was taken.
#![tactic(auto)]

ghost use Rattle.std.specs.Prelude.{◌≡◌};
ghost use Rattle.text.specs.Text.{Added};
ghost use Rattle.cli_wording.specs.Sayings.{is_refusal, meaning, place_meaning, kind_name, meaning_line, explanation, counted, accepted_line, size_line};

use text::Page;

// The numbers that a refusal can have.
pub fn is_refusal(number: u32) -> bool
    ensures { result ≡ is_refusal number }
{
    matches!(number, 1..=11 | 20..=30)
}

// ---- texts by number

// What a refusal means.
#[tactic(auto, unfolding(crate::specs::Sayings::meaning, crate::specs::Sayings::saying_of, crate::specs::Sayings::bytes))]
fn meaning(number: u32) -> &'static [u8]
    ensures { result.now ≡ meaning number }
{
    match number {
        1 => b"the definition is longer than 65,535 bytes",
        2 => b"a wrong character, an endless /* or a ninth {",
        3 => b"this can't stand here, or the text ends early",
        4 => b"more than 256 parameters",
        5 => b"not a proper name, reference or tag",
        6 => b"not a proper range, or none may stand here",
        7 => b"a rule on untagged, plugin or void is broken",
        8 => b"this name or tag was given before",
        9 => b"the root is no struct, or no top has this name",
        10 => b"a value of this struct or union can never end",
        11 => b"the table does not fit the room for it",
        20 => b"no definition compiles to this table",
        21 => b"the message is longer than 16,384 bytes",
        22 => b"a wrong character, a lone \" or a 17th {",
        23 => b"this can't stand here, or the message ends early",
        24 => b"no value of the type is written like this",
        25 => b"too few or too many values in this list",
        26 => b"this tag was given before",
        27 => b"a required field is missing",
        28 => b"no alternative has this tag",
        29 => b"the rows do not fit the room for them",
        30 => b"written rightly, but outside what is allowed",
        _ => b"",
    }
}

// What a refusal's place is.
#[tactic(auto, unfolding(crate::specs::Sayings::place_meaning, crate::specs::Sayings::saying_of, crate::specs::Sayings::bytes))]
fn place_meaning(number: u32) -> &'static [u8]
    ensures { result.now ≡ place_meaning number }
{
    match number {
        1 => b"the first byte too many",
        2 => b"the character, the /* or the {",
        3 => b"what can't stand there, or the end",
        4 => b"the name of the 257th parameter",
        5 => b"the name, reference or tag",
        6 => b"the range",
        7 => b"the name of the field",
        8 => b"the later name or tag",
        9 => b"the root's name, or the reference",
        10 => b"the name of the struct or union",
        11 => b"the number of bytes needed",
        20 => b"the first byte of the table",
        21 => b"the first byte too many",
        22 => b"the character, the \" or the {",
        23 => b"what can't stand there, or the end",
        24 => b"the value",
        25 => b"what follows a short list, or the extra comma",
        26 => b"the later one",
        27 => b"the } of the struct, or the end of the message",
        28 => b"the word",
        29 => b"the number of rows needed",
        30 => b"the value",
        _ => b"",
    }
}

// A kind as definitions write it.
#[tactic(auto, unfolding(crate::specs::Sayings::kind_name, crate::specs::Sayings::saying_of, crate::specs::Sayings::bytes))]
fn kind_name(kind: u32) -> &'static [u8]
    ensures { result.now ≡ kind_name kind }
{
    match kind {
        1 => b"void",
        2 => b"bool",
        3 => b"int",
        4 => b"ascii",
        5 => b"unquoted-ascii",
        6 => b"date",
        7 => b"time",
        8 => b"struct",
        9 => b"union",
        10 => b"reference",
        _ => b"",
    }
}

// ---- lines

// What a refusal means.
pub fn put_meaning(page: &mut Page, number: u32)
    ensures { Added (meaning number) page.old page.new }
{
    page.text(meaning(number));
}

// A kind as definitions write it.
pub fn put_kind(page: &mut Page, kind: u32)
    ensures { Added (kind_name kind) page.old page.new }
{
    page.text(kind_name(kind));
}

// "refused NUMBER: MEANING", and the line's end.
pub fn put_refused(page: &mut Page, number: u32)
    ensures { Added (meaning_line number) page.old page.new }
{
    page.text(b"refused ");
    page.decimal(u64::from(number));
    page.text(b": ");
    put_meaning(page, number);
    page.byte(b'\n');
}

// What a refusal's number means, and what its place is.
pub fn put_explanation(page: &mut Page, number: u32)
    ensures { Added (explanation number) page.old page.new }
{
    put_refused(page, number);
    page.text(b"The place is ");
    page.text(place_meaning(number));
    page.text(b".\n");
}

// "1 row", "2 rows".
fn put_count(page: &mut Page, count: usize, what: &[u8])
    ensures { Added (counted count what.now) page.old page.new }
{
    page.decimal(count as u64);
    page.byte(b' ');
    page.text(what);
    if count != 1 {
        page.byte(b's');
    }
}

// "FILE: accepted, 5 rows".
pub fn put_accepted(page: &mut Page, file: &[u8], count: usize)
    ensures { Added (accepted_line file.now count) page.old page.new }
{
    page.text(file);
    page.text(b": accepted, ");
    put_count(page, count, b"row");
    page.byte(b'\n');
}

// "FILE: a table of 5 records, 139 bytes"; how stands between the file and the numbers.
pub fn put_size(page: &mut Page, file: &[u8], how: &[u8], count: usize, bytes: usize)
    ensures { Added (size_line file.now how.now count bytes) page.old page.new }
{
    page.text(file);
    page.text(how);
    put_count(page, count, b"record");
    page.text(b", ");
    put_count(page, bytes, b"byte");
    page.byte(b'\n');
}
