// The order of a table's records: preorder, at most 8 bodies deep, extensions last.
#![tactic(auto)]

ghost use Rattle.std.specs.Prelude.{◌≡◌, true, [], ◌≤◌, ◌<◌, length};
ghost use Rattle.reading_rules.specs.Record.{same_up};
ghost use Rattle.definition_rules.specs.Words.{kind_is_compound};
ghost use Rattle.definition_rules.specs.Table.{number_up};
ghost use Rattle.definition_rules.specs.Declarations.{parent_of};
ghost use Rattle.table_rules.specs.RecordRules.{is_open, closed_to, in_extension, push_if, may_stand, stands_in, ordered as is_ordered};
ghost use Rattle.table_records.specs.Shown.{held_record, held_records};
ghost use Rattle.table_order.specs.Open.{frames_of};

use table_records::Records;

// An open body: the number of its record, and whether a field in an extension was met in it. The open ones stand in a row of
// fixed length, and how many they are beside it, as no heap is used.
#[derive(Clone, Copy)]
struct Body {
    number: usize,
    extended: bool,
}

const NO_BODY: Body = Body {
    number: 0,
    extended: false,
};

fn is_open(q: usize, p: usize) -> bool
    ensures { result ≡ is_open (number_up p) q }
{
    (p != numbers::NONE16) & (q == p)
}

// How many bodies stay open once all inside p's are closed.
fn closed_to(bodies: &[Body], depth: usize, p: usize) -> usize
    ensures { (frames_of bodies.now result ≡ closed_to (number_up p) (frames_of bodies.now depth)) × (result ≤ depth) }
{
    for d in (0..depth).rev() {
        if is_open(numbers::get_or(bodies, d, NO_BODY).number, p) {
            return d + 1;
        }
    }
    0
}

fn is_compound(k: u32) -> bool
    ensures { result ≡ kind_is_compound k }
{
    (numbers::STRUCT <= k) & (k <= numbers::UNION)
}

// The innermost open body is p's; outside all, p is none.
fn is_parent(bodies: &[Body], depth: usize, p: usize) -> bool
    ensures { result ≡ same_up (parent_of (frames_of bodies.now depth)) (number_up p) }
{
    if depth == 0 {
        return p == numbers::NONE16;
    }
    is_open(numbers::get_or(bodies, depth - 1, NO_BODY).number, p)
}

// No field outside an extension after one inside, and no extension outside all bodies.
fn may_stand(bodies: &[Body], depth: usize, extension: bool) -> bool
    ensures { result ≡ may_stand (frames_of bodies.now depth) extension }
{
    if depth == 0 {
        return !extension;
    }
    let is_extended = numbers::get_or(bodies, depth - 1, NO_BODY).extended;
    if is_extended {
        return extension;
    }
    true
}

fn stands_in(records: &Records, i: usize, bodies: &[Body], depth: usize) -> bool
    ensures { result ≡ stands_in (frames_of bodies.now depth) (held_record records.now i) }
{
    if !is_parent(bodies, depth, records.parent_at(i)) {
        return false;
    }
    if !may_stand(bodies, depth, records.extension_at(i)) {
        return false;
    }
    !is_compound(records.kind_at(i)) | (depth < numbers::DEPTH_LIMIT)
}

// A field in an extension: from here on the body has only such fields.
fn note_extension(bodies: &mut [Body], depth: usize, extension: bool)
    requires { depth ≤ length bodies.old }
    ensures { frames_of bodies.new depth ≡ in_extension extension (frames_of bodies.old depth) }
{
    if depth == 0 {
        return;
    }
    if extension {
        let number = numbers::get_or(bodies, depth - 1, NO_BODY).number;
        numbers::set(
            bodies,
            depth - 1,
            Body {
                number,
                extended: true,
            },
        );
    }
}

// How many bodies are open after record i, which opens one where it is a struct or a union.
fn opened(records: &Records, i: usize, bodies: &mut [Body], depth: usize) -> usize
    requires { (depth ≤ length bodies.old) × (kind_is_compound (held_record records.now i).kind ≡ true → depth < length bodies.old) }
    ensures { (frames_of bodies.new result ≡ push_if (kind_is_compound (held_record records.now i).kind) i (in_extension (held_record records.now i).extension (frames_of bodies.old depth))) × (result ≤ length bodies.old) }
{
    note_extension(bodies, depth, records.extension_at(i));
    if is_compound(records.kind_at(i)) {
        numbers::set(
            bodies,
            depth,
            Body {
                number: i,
                extended: false,
            },
        );
        return depth + 1;
    }
    depth
}

pub fn ordered(records: &Records) -> bool
    ensures { result ≡ is_ordered [] 0 (held_records records.now) }
{
    let mut bodies = [NO_BODY; numbers::DEPTH_LIMIT];
    let mut depth: usize = 0;
    for i in 0..records.count {
        depth = closed_to(&bodies, depth, records.parent_at(i));
        if !stands_in(records, i, &bodies, depth) {
            return false;
        }
        depth = opened(records, i, &mut bodies, depth);
    }
    true
}
