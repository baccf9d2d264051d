// Runs of a definition: the kind that a type run names, keywords, the forms of names and tags.
#![tactic(auto)]

ghost use Rattle.std.specs.Prelude.{◌≡◌};
ghost use Rattle.classes.specs.Lists.{same_bytes};
ghost use Rattle.definition_rules.specs.Words.{kw_as, kw_plugin, kind_of_run, is_keyword, starts_with_letter, name_form, tag_form, has_dot};
ghost use Rattle.definition_rules.specs.Records.{kind_least, kind_most};

// 1 to 9 for a type keyword, 10 for a reference.
#[tactic(auto, unfolding(definition_rules::specs::Words::kind_of_run, definition_rules::specs::Words::number_in, definition_rules::specs::Words::number_if, classes::specs::Lists::same_bytes))]
pub fn kind_of_run(w: &[u8]) -> u32
    ensures { result ≡ kind_of_run w.now }
{
    match w {
        b"void" => numbers::VOID,
        b"bool" => numbers::BOOL,
        b"int" => numbers::INT,
        b"ascii" => numbers::ASCII,
        b"unquoted-ascii" => numbers::UNQUOTED,
        b"date" => numbers::DATE,
        b"time" => numbers::TIME,
        b"struct" => numbers::STRUCT,
        b"union" => numbers::UNION,
        _ => numbers::REFERENCE,
    }
}

// The least length of an unquoted value, and the largest of any, counted from the least i32.
const UNQUOTED_LEAST: u32 = numbers::BIAS + 1;

const LENGTH_MOST: u32 = numbers::BIAS + numbers::LENGTH_LIMIT;

// What a range of a kind may not lie below, counted from the least i32: 0 itself for kinds without a range.
#[tactic(auto, unfolding(definition_rules::specs::Records::kind_least, classes::specs::Lists::pick))]
pub fn kind_least(k: u32) -> u32
    ensures { result ≡ kind_least k }
{
    match k {
        numbers::INT => 0,
        numbers::UNQUOTED => UNQUOTED_LEAST,
        _ => numbers::BIAS,
    }
}

// What it may not exceed.
#[tactic(auto, unfolding(definition_rules::specs::Records::kind_most, definition_rules::specs::Words::kind_takes_range, classes::specs::Lists::pick))]
pub fn kind_most(k: u32) -> u32
    ensures { result ≡ kind_most k }
{
    match k {
        numbers::INT => numbers::INT_MOST,
        numbers::ASCII | numbers::UNQUOTED => LENGTH_MOST,
        _ => numbers::BIAS,
    }
}

pub fn is_as(w: &[u8]) -> bool
    ensures { result ≡ same_bytes kw_as w.now }
{
    classes::same_bytes(b"as", w)
}

pub fn is_plugin(w: &[u8]) -> bool
    ensures { result ≡ same_bytes kw_plugin w.now }
{
    classes::same_bytes(b"plugin", w)
}

// A type keyword, as or plugin.
#[tactic(auto, unfolding(definition_rules::specs::Words::is_keyword))]
pub fn is_keyword(w: &[u8]) -> bool
    ensures { result ≡ is_keyword w.now }
{
    (kind_of_run(w) < numbers::REFERENCE) | is_as(w) | is_plugin(w)
}

#[tactic(auto, unfolding(definition_rules::specs::Words::starts_with_letter))]
fn starts_with_letter(w: &[u8]) -> bool
    ensures { result ≡ starts_with_letter w.now }
{
    w.first().is_some_and(|b| classes::is_letter(*b))
}

// A letter, then letters, digits, - and _; 1 to 63 bytes; no keyword.
pub fn name_form(w: &[u8]) -> bool
    ensures { result ≡ name_form w.now }
{
    let is_short = w.len() <= numbers::LABEL_LIMIT;
    is_short
        && (starts_with_letter(w) & w.iter().all(|b| classes::is_name_byte(*b)) & !is_keyword(w))
}

// 1 to 63 letters, digits, - _ and dots.
pub fn tag_form(w: &[u8]) -> bool
    ensures { result ≡ tag_form w.now }
{
    (0 < w.len()) & w.iter().all(|b| classes::is_tag_byte(*b)) & (w.len() <= numbers::LABEL_LIMIT)
}

pub fn has_dot(w: &[u8]) -> bool
    ensures { result ≡ has_dot w.now }
{
    w.contains(&b'.')
}
