// The tokens of a definition's text, one after the other, and refusal 2.
#![tactic(auto)]

ghost use Rattle.std.specs.Prelude.{◌≡◌, ◌&&◌, ◌+◌, ◌<◌, ◌≤◌, eqb, length, get_or};
ghost use Rattle.numbers.specs.Limits.{depth_limit};
ghost use Rattle.definition_rules.specs.Scan.{items_of, braces_after, is_deep_brace};
ghost use Rattle.definition_rules.specs.Compile.{faults2};
ghost use Rattle.definition_scanner.specs.Lexed.{LineEnded, CommentClosed, LexTurned, Lexed};
ghost use Rattle.definition_cells.specs.Places.{least_place};
ghost use Rattle.definition_scanner.specs.First.{ScanStep};

use std::ops::ControlFlow;

// Where in the text one stands.
#[derive(Clone, Copy)]
pub struct Cursor {
    pub at: usize,
}

// A run with its start, or a mark with its place, each with the cursor past it; a bad byte, or a comment without end; the end.
#[derive(Clone, Copy)]
pub enum Lexeme {
    Run(usize, Cursor),
    Mark(u8, usize, Cursor),
    Bad(usize),
    End,
}

// Past the LF that ends a comment from `//`, or the end.
fn line_end(text: &[u8], from: usize) -> usize
    requires { from ≤ length text.now }
    ensures { LineEnded text.now from result }
{
    for at in from..text.len() {
        let is_last = text[at] == b'\n';
        if is_last {
            return at + 1;
        }
    }
    text.len()
}

fn ends_comment(text: &[u8], at: usize) -> bool
    requires { at + 1 < length text.now }
    ensures { result ≡ (eqb (get_or text.now at 0) 42 && eqb (get_or text.now (at + 1) 0) 47) }
{
    (text[at] == b'*') & (text[at + 1] == b'/')
}

// Past the first `*/`, if there is one.
fn comment_end(text: &[u8], from: usize) -> Option<usize>
    requires { from ≤ length text.now }
    ensures { CommentClosed text.now from result }
{
    for at in from..text.len().saturating_sub(1) {
        if ends_comment(text, at) {
            return Some(at + 2);
        }
    }
    None
}

// What a `/` begins: a comment, which is passed, or nothing.
fn slash(text: &[u8], at: usize) -> ControlFlow<Lexeme, usize>
    requires { (at < length text.now) × (get_or text.now at 0 ≡ 47) }
    ensures { LexTurned text.now at result }
{
    let n = at + 1;
    if text.len() <= n {
        return ControlFlow::Break(Lexeme::Bad(at));
    }
    let b = text[n];
    if b == b'/' {
        return ControlFlow::Continue(line_end(text, n));
    }
    if b == b'*' {
        return match comment_end(text, n + 1) {
            Some(e) => ControlFlow::Continue(e),
            None => ControlFlow::Break(Lexeme::Bad(at)),
        };
    }
    ControlFlow::Break(Lexeme::Bad(at))
}

// A byte's turn: a blank or a comment is passed, anything else is told.
fn turn_at(text: &[u8], at: usize) -> ControlFlow<Lexeme, usize>
    ensures { LexTurned text.now at result }
{
    if text.len() <= at {
        return ControlFlow::Break(Lexeme::End);
    }
    let b = text[at];
    if classes::is_run_byte(b) {
        let e = classes::run_end(text, at + 1, classes::is_run_byte);
        return ControlFlow::Break(Lexeme::Run(at, Cursor { at: e }));
    }
    if classes::is_blank(b) {
        return ControlFlow::Continue(at + 1);
    }
    if classes::is_mark(b) {
        return ControlFlow::Break(Lexeme::Mark(b, at, Cursor { at: at + 1 }));
    }
    if b == b'/' {
        return slash(text, at);
    }
    ControlFlow::Break(Lexeme::Bad(at))
}

impl Cursor {
    // The next token from here.
    pub fn next(self, text: &[u8]) -> Lexeme
        ensures { Lexed text.now self.at result }
    {
        let mut at: usize = self.at;
        loop {
            match turn_at(text, at) {
                ControlFlow::Continue(e) => {
                    at = e;
                }
                ControlFlow::Break(x) => {
                    return x;
                }
            }
        }
    }
}

// ---- refusal 2

#[tactic(auto, unfolding(definition_rules::specs::Scan::is_deep_brace))]
fn too_deep(deep: usize, b: u8) -> bool
    ensures { result ≡ is_deep_brace deep b }
{
    (b == b'{') & (numbers::DEPTH_LIMIT <= deep)
}

// The braces open after a mark: opened less closed, never under 0.
fn open_after(deep: usize, b: u8) -> usize
    requires { deep < 65536 }
    ensures { result ≡ braces_after deep b }
{
    if b == b'{' {
        return deep + 1;
    }
    if b == b'}' {
        return deep.saturating_sub(1);
    }
    deep
}

// A token's turn in the search for faults: the cursor past it and the braces that are open, or the answer.
fn check_next(text: &[u8], c: Cursor, deep: usize) -> ControlFlow<Option<usize>, (Cursor, usize)>
    requires { deep ≤ depth_limit }
    ensures { ScanStep text.now c.at deep result }
{
    match c.next(text) {
        Lexeme::Run(_, d) => ControlFlow::Continue((d, deep)),
        Lexeme::Mark(b, p, d) => {
            if too_deep(deep, b) {
                return ControlFlow::Break(Some(p));
            }
            ControlFlow::Continue((d, open_after(deep, b)))
        }
        Lexeme::Bad(p) => ControlFlow::Break(Some(p)),
        Lexeme::End => ControlFlow::Break(None),
    }
}

// The first bad byte, comment without end, or `{` with 8 open.
pub fn scan_fault(text: &[u8]) -> Option<usize>
    ensures { result ≡ least_place (faults2 (items_of text.now)) }
{
    let mut c = Cursor { at: 0 };
    let mut deep: usize = 0;
    loop {
        match check_next(text, c, deep) {
            ControlFlow::Continue((d, n)) => {
                c = d;
                deep = n;
            }
            ControlFlow::Break(p) => {
                return p;
            }
        }
    }
}
