// Where a reader of a message stands and what it answers, and the number of a token that no value starts with.
#![tactic(auto)]

ghost use Rattle.std.specs.Prelude.{◌≡◌};
ghost use Rattle.numbers.specs.Rules.{rule_number};
ghost use Rattle.message_tokens.specs.Head.{kind_number};
ghost use Rattle.message_frame.specs.AtToken.{unfit_of};

use message_tokens::{Cursor, TokenKind};
use numbers::Rule;

// Where a reader stands: at in s, the next row, the parameter that is read, the row above, the value's index (its place in
// its list), how many braces may still open.
#[derive(Clone, Copy)]
pub struct Frame {
    pub base: usize,
    pub at: usize,
    pub row: usize,
    pub parameter: usize,
    pub parent: usize,
    pub index: usize,
    pub depth: usize,
}

// How far a reader got: up to the cursor, and the next row.
#[derive(Clone, Copy)]
pub struct Done {
    pub past: Cursor,
    pub row: usize,
}

// What a token that no value starts with breaks: that of a value's form at a word, a string or a `{`, that of the message's forms
// at what can't be a value's start.
#[tactic(auto, unfolding(crate::specs::AtToken::unfit_of))]
pub fn unfit(kind: TokenKind) -> Rule
    ensures { rule_number result ≡ unfit_of (kind_number kind) }
{
    match kind {
        TokenKind::Word | TokenKind::String | TokenKind::Opening => Rule::ValueForm,
        _ => Rule::MessageForms,
    }
}
