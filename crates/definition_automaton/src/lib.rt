// The automaton that reads a definition's forms: what each token does, the open bodies, the declaration at hand,
// and its numbers in a lent row.
#![tactic(auto)]

ghost use Rattle.std.specs.Prelude.{◌≡◌, Some, None, length, ◌+◌, ◌*◌, ◌≤◌};
ghost use Rattle.std.proofs.lemmas.List.Edits.{sets};
ghost use Rattle.definition_cells.specs.Cells.{cell_width};
ghost use Rattle.numbers.specs.Limits.{parameter_limit};
ghost use Rattle.definition_automaton.specs.Acts.{end_act, plugin_act, as_act, name_act, type_act, closing_act, body_act, start_act, run_act, mark_act, typed_act, tag_act, act_of, next_mode};
ghost use Rattle.definition_automaton.specs.States.{started, body_after, context_of, parent_number, extension_flag, with_body, field_done_of, pushed_of, popped_of, counted_of, mode_moved, after_of};
ghost use Rattle.definition_automaton.specs.Noting.{none, named_of, pending_by, cells_of, notes, note_cells};
ghost use Rattle.definition_automaton.specs.Codes.{flag_number, token_number, is_run, mode_number, part_number, context_number_of, act_number, answer_number, innermost_of, stand_of, hand_of};

// ---- the kinds

// What a token is: the end, a bad byte, a mark, or a run that names a type (one that may have a range, another simple
// type, a struct or a union), is `as` or `plugin`, or any other run, which is a reference where a type is due.
#[derive(Clone, Copy, Debug, PartialEq, Eq)]
pub enum Token {
    End,
    Bad,
    Semicolon,
    RangeOpens,
    RangeCloses,
    Question,
    BracketOpens,
    BracketCloses,
    BraceOpens,
    BraceCloses,
    RangedType,
    SimpleType,
    CompoundType,
    Reference,
    As,
    Plugin,
}

// Where a parameter or a body's end is due, a `;` after a body is, after a type, where its range is due, its `>`, a name
// after a range, after a name, a cardinality, a tag, plugin, where a cardinality's range is due, a tag, a cardinality's `]`.
#[derive(Clone, Copy, Debug, PartialEq, Eq)]
pub enum Mode {
    AtStart,
    DueSemicolon,
    AfterType,
    DueRange,
    DueRangeEnd,
    DueName,
    AfterName,
    AfterCard,
    AfterTag,
    AfterPlugin,
    DueCard,
    DueTag,
    DueCardEnd,
}

// How far a body is: among the fields, a group just opened, in a group, after a group.
#[derive(Clone, Copy, Debug, PartialEq, Eq)]
pub enum Part {
    Fields,
    Opened,
    Group,
    Closed,
}

// What a token does that can go on: it is a type, `<`, a type's range, `>`, a name, `[` of a cardinality, its range,
// its `]`, `as`, a tag, `?`, plugin, `;`, `{`, `}`, `;` after a body, `[` and `]` of a group, a name after a range.
#[derive(Clone, Copy, Debug, PartialEq, Eq)]
pub enum Action {
    TakeType,
    OpenRange,
    TakeRange,
    CloseRange,
    TakeName,
    OpenCard,
    TakeCard,
    CloseCard,
    TakeAs,
    TakeTag,
    TakeNoTag,
    TakePlugin,
    EndHeading,
    OpenBody,
    CloseBody,
    EndBody,
    OpenGroup,
    CloseGroup,
    TakeNameAfterRange,
}

// Which tag a declaration has: its own name, none, or one that is given; with its number in the cells.
#[derive(Clone, Copy, Debug, PartialEq, Eq)]
pub enum Tagged {
    OwnName = 0,
    Tagless = 1,
    Explicit = 2,
}

// ---- what is kept

// An open body: its parameter's number, and how far it is.
#[derive(Clone, Copy, Debug, PartialEq, Eq)]
pub struct Body {
    pub parameter: u32,
    pub part: Part,
}

// Where the automaton stands: the mode, the open bodies, the declarations so far, the place of the 257th name.
// The bodies lie in fixed memory, so that how many are open stands beside them.
#[derive(Clone, Copy)]
pub struct State {
    pub mode: Mode,
    pub depth: usize,
    pub bodies: [Body; numbers::DEPTH_LIMIT],
    pub count: usize,
    pub over: usize,
}

// A run of the text.
#[derive(Clone, Copy)]
pub struct Span {
    pub start: u32,
    pub end: u32,
}

// What was read of a declaration: its runs; whether a range, a cardinality, plugin is given; which tag; what token its
// type is. A run that isn't given stands where its cells have it, at the type or the name, so none of them is an Option.
#[derive(Clone, Copy)]
pub struct Pending {
    pub typed: Span,
    pub range: Span,
    pub name: Span,
    pub card: Span,
    pub tag: Span,
    pub ranged: bool,
    pub carded: bool,
    pub tagged: Tagged,
    pub plugin: bool,
    pub kind: Token,
}

// ---- what a token does

// A context, a type's kind and a token go through these functions as `act` takes them: each is matched on its own, so that
// a struct of the three would be taken apart again at once.

impl Token {
    fn is_run(self) -> bool
        ensures { result ≡ is_run self }
    {
        matches!(
            self,
            Token::RangedType
                | Token::SimpleType
                | Token::CompoundType
                | Token::Reference
                | Token::As
                | Token::Plugin
        )
    }
}

// An act where a run is due.
#[tactic(auto, unfolding(crate::specs::Acts::run_act, classes::specs::Lists::pick))]
fn run_act(act: Action, token: Token) -> Option<Action>
    ensures { answer_number result ≡ run_act (act_number act) (token_number token) }
{
    token.is_run().then_some(act)
}

// An act where a certain mark is due.
#[tactic(auto, unfolding(crate::specs::Acts::mark_act, classes::specs::Lists::pick))]
fn mark_act(mark: Token, act: Action, token: Token) -> Option<Action>
    ensures { answer_number result ≡ mark_act (token_number mark) (act_number act) (token_number token) }
{
    (token == mark).then_some(act)
}

// `;` and `{` end a heading.
#[tactic(auto, unfolding(crate::specs::Acts::end_act, crate::specs::Acts::mark_act, classes::specs::Lists::pick))]
fn end_act(kind: Token, token: Token) -> Option<Action>
    ensures { answer_number result ≡ end_act (token_number kind) (token_number token) }
{
    match kind {
        Token::CompoundType => mark_act(Token::BraceOpens, Action::OpenBody, token),
        _ => mark_act(Token::Semicolon, Action::EndHeading, token),
    }
}

// `plugin`, or the heading's end.
#[tactic(auto, unfolding(crate::specs::Acts::plugin_act, classes::specs::Lists::pick))]
fn plugin_act(context: Option<Part>, kind: Token, token: Token) -> Option<Action>
    ensures { answer_number result ≡ plugin_act (context_number_of context) (token_number kind) (token_number token) }
{
    match token {
        Token::Plugin => context.and(Some(Action::TakePlugin)),
        _ => end_act(kind, token),
    }
}

// `as`, or what follows it.
#[tactic(auto, unfolding(crate::specs::Acts::as_act, classes::specs::Lists::pick))]
fn as_act(context: Option<Part>, kind: Token, token: Token) -> Option<Action>
    ensures { answer_number result ≡ as_act (context_number_of context) (token_number kind) (token_number token) }
{
    match token {
        Token::As => context.and(Some(Action::TakeAs)),
        _ => plugin_act(context, kind, token),
    }
}

// `[` of a cardinality, or what follows it.
#[tactic(auto, unfolding(crate::specs::Acts::name_act, classes::specs::Lists::pick))]
fn name_act(context: Option<Part>, kind: Token, token: Token) -> Option<Action>
    ensures { answer_number result ≡ name_act (context_number_of context) (token_number kind) (token_number token) }
{
    match token {
        Token::BracketOpens => context.and(Some(Action::OpenCard)),
        _ => as_act(context, kind, token),
    }
}

// A type: only a top's can't be a reference.
#[tactic(auto, unfolding(crate::specs::Acts::type_act, classes::specs::Lists::pick))]
fn type_act(context: Option<Part>, token: Token) -> Option<Action>
    ensures { answer_number result ≡ type_act (context_number_of context) (token_number token) }
{
    match (context, token) {
        (None, Token::Reference | Token::As | Token::Plugin) => None,
        (Some(Part::Closed), _) => None,
        _ => Some(Action::TakeType),
    }
}

// An act where a body may close or open its group.
#[tactic(auto, unfolding(crate::specs::Acts::closing_act, classes::specs::Lists::pick))]
fn closing(context: Option<Part>, act: Action) -> Option<Action>
    ensures { answer_number result ≡ closing_act (context_number_of context) (act_number act) }
{
    match context {
        Some(Part::Fields | Part::Closed) => Some(act),
        _ => None,
    }
}

// `}`, and `[` and `]` of a group.
#[tactic(auto, unfolding(crate::specs::Acts::body_act, classes::specs::Lists::pick))]
fn body_act(context: Option<Part>, token: Token) -> Option<Action>
    ensures { answer_number result ≡ body_act (context_number_of context) (token_number token) }
{
    match (token, context) {
        (Token::BraceCloses, _) => closing(context, Action::CloseBody),
        (Token::BracketOpens, _) => closing(context, Action::OpenGroup),
        (Token::BracketCloses, Some(Part::Group)) => Some(Action::CloseGroup),
        _ => None,
    }
}

// A run or a mark where a parameter or a body's end is due.
#[tactic(auto, unfolding(crate::specs::Acts::start_act, classes::specs::Lists::pick))]
fn start_act(context: Option<Part>, token: Token) -> Option<Action>
    ensures { answer_number result ≡ start_act (context_number_of context) (token_number token) }
{
    if token.is_run() {
        type_act(context, token)
    } else {
        body_act(context, token)
    }
}

// A name after a type, or `<`.
#[tactic(auto, unfolding(crate::specs::Acts::typed_act, classes::specs::Lists::pick))]
fn typed_act(kind: Token, token: Token) -> Option<Action>
    ensures { answer_number result ≡ typed_act (token_number kind) (token_number token) }
{
    if token.is_run() {
        return Some(Action::TakeName);
    }
    match kind {
        Token::RangedType => mark_act(Token::RangeOpens, Action::OpenRange, token),
        _ => None,
    }
}

// A tag, or `?`.
#[tactic(auto, unfolding(crate::specs::Acts::tag_act, classes::specs::Lists::pick))]
fn tag_act(token: Token) -> Option<Action>
    ensures { answer_number result ≡ tag_act (token_number token) }
{
    if token.is_run() {
        return Some(Action::TakeTag);
    }
    mark_act(Token::Question, Action::TakeNoTag, token)
}

// What a token does in a context, the part of the innermost body, after a type of a kind; none if it can't go on. The four stand
// apart, as each is matched on its own.
#[tactic(auto, unfolding(crate::specs::Acts::act_of, classes::specs::Lists::pick))]
pub fn act(mode: Mode, context: Option<Part>, kind: Token, token: Token) -> Option<Action>
    ensures { answer_number result ≡ act_of (mode_number mode) (context_number_of context) (token_number kind) (token_number token) }
{
    // The modes are the automaton's states, and each asks something else: no caller could pass a closure for one.
    match mode {
        Mode::AtStart => start_act(context, token),
        Mode::DueSemicolon => mark_act(Token::Semicolon, Action::EndBody, token),
        Mode::AfterType => typed_act(kind, token),
        Mode::DueRange => run_act(Action::TakeRange, token),
        Mode::DueRangeEnd => mark_act(Token::RangeCloses, Action::CloseRange, token),
        Mode::DueName => run_act(Action::TakeNameAfterRange, token),
        Mode::AfterName => name_act(context, kind, token),
        Mode::AfterCard => as_act(context, kind, token),
        Mode::AfterTag => plugin_act(context, kind, token),
        Mode::AfterPlugin => end_act(kind, token),
        Mode::DueCard => run_act(Action::TakeCard, token),
        Mode::DueTag => tag_act(token),
        Mode::DueCardEnd => mark_act(Token::BracketCloses, Action::CloseCard, token),
    }
}

impl Action {
    // The mode after it.
    #[tactic(auto, unfolding(crate::specs::Acts::next_mode, crate::specs::Acts::next_modes, classes::specs::Lists::pick))]
    fn next(self) -> Mode
        ensures { mode_number result ≡ next_mode (act_number self) }
    {
        match self {
            Action::TakeType => Mode::AfterType,
            Action::OpenRange => Mode::DueRange,
            Action::TakeRange => Mode::DueRangeEnd,
            Action::CloseRange => Mode::DueName,
            Action::TakeName | Action::TakeNameAfterRange => Mode::AfterName,
            Action::OpenCard => Mode::DueCard,
            Action::TakeCard => Mode::DueCardEnd,
            Action::CloseCard => Mode::AfterCard,
            Action::TakeAs => Mode::DueTag,
            Action::TakeTag | Action::TakeNoTag => Mode::AfterTag,
            Action::TakePlugin => Mode::AfterPlugin,
            Action::CloseBody => Mode::DueSemicolon,
            Action::EndHeading
            | Action::OpenBody
            | Action::EndBody
            | Action::OpenGroup
            | Action::CloseGroup => Mode::AtStart,
        }
    }
}

// ---- the state

// What a place among the bodies holds before one is opened there.
const NO_BODY: Body = Body {
    parameter: 0,
    part: Part::Fields,
};

pub fn start() -> State
    ensures { stand_of result ≡ started }
{
    State {
        mode: Mode::AtStart,
        depth: 0,
        bodies: [NO_BODY; numbers::DEPTH_LIMIT],
        count: 0,
        over: 0,
    }
}

impl Part {
    // How far the body is after a field.
    #[tactic(auto, unfolding(crate::specs::States::body_after, classes::specs::Lists::pick))]
    fn after_field(self) -> Part
        ensures { part_number result ≡ body_after (part_number self) }
    {
        match self {
            Part::Opened => Part::Group,
            _ => self,
        }
    }
}

// More declarations than any text has, where counting stops.
const MANY: usize = numbers::TEXT_LIMIT + 1;

impl State {
    // The innermost open body.
    fn innermost(self) -> Option<Body>
        ensures { result ≡ innermost_of self }
    {
        let at = self.depth.checked_sub(1)?;
        Some(numbers::get_or(&self.bodies, at, NO_BODY))
    }

    // How far the innermost body is, none at the top.
    #[tactic(auto, unfolding(crate::specs::States::context_of, crate::specs::States::context_number, crate::specs::States::entry_of, classes::specs::Lists::pick))]
    pub fn context(self) -> Option<Part>
        ensures { context_number_of result ≡ context_of (stand_of self) }
    {
        self.innermost().map(|body| body.part)
    }

    // The number of the parameter whose body is open.
    #[tactic(auto, unfolding(crate::specs::States::parent_number, crate::specs::States::entry_of, classes::specs::Lists::pick))]
    fn parent(self) -> u32
        ensures { result ≡ parent_number (stand_of self) }
    {
        match self.innermost() {
            Some(body) => body.parameter,
            None => definition_cells::NO_PARENT,
        }
    }

    // The innermost body is as far as a part.
    #[tactic(auto, using(crate::proofs::CellLaws::parts_set, crate::proofs::CellLaws::parameters_kept), unfolding(crate::specs::States::with_body, classes::specs::Lists::pick))]
    fn in_body(mut self, part: Part) -> State
        ensures { stand_of result ≡ with_body (stand_of self) (part_number part) }
    {
        if let Some(at) = self.depth.checked_sub(1)
            && at < numbers::DEPTH_LIMIT
        {
            self.bodies[at].part = part;
        }
        self
    }

    #[tactic(auto, unfolding(crate::specs::States::field_done_of, crate::specs::States::entry_of, classes::specs::Lists::pick))]
    fn field_done(self) -> State
        ensures { stand_of result ≡ field_done_of (stand_of self) }
    {
        match self.innermost() {
            Some(body) => self.in_body(body.part.after_field()),
            None => self,
        }
    }

    // The declaration at hand opens a body.
    #[tactic(auto, using(crate::proofs::CellLaws::parts_set, crate::proofs::CellLaws::parameters_set), unfolding(crate::specs::States::pushed_of, classes::specs::Lists::pick))]
    fn pushed(mut self) -> State
        ensures { stand_of result ≡ pushed_of (stand_of self) }
    {
        if self.depth < numbers::DEPTH_LIMIT {
            self.bodies[self.depth] = Body {
                parameter: (self.count % 65536) as u32,
                part: Part::Fields,
            };
            self.depth += 1;
        }
        self
    }

    fn popped(mut self) -> State
        ensures { stand_of result ≡ popped_of (stand_of self) }
    {
        self.depth = self.depth.saturating_sub(1);
        self
    }

    // One declaration more, with its name at a place; the 257th's is kept.
    #[tactic(auto, unfolding(crate::specs::States::over_of, crate::specs::States::more_of, classes::specs::Lists::pick))]
    fn counted(mut self, name: usize) -> State
        ensures { stand_of result ≡ counted_of (stand_of self) name }
    {
        if self.count == numbers::PARAMETER_LIMIT {
            self.over = name;
        }
        if self.count < MANY {
            self.count += 1;
        }
        self
    }

    #[tactic(auto, unfolding(crate::specs::Acts::next_mode, crate::specs::Acts::next_modes, classes::specs::Lists::pick))]
    fn moved(mut self, act: Option<Action>) -> State
        ensures { stand_of result ≡ mode_moved (stand_of self) (answer_number act) }
    {
        self.mode = match act {
            Some(act) => act.next(),
            None => Mode::AtStart,
        };
        self
    }

    // What an action makes of it. A token that can't go on has none, and leaves the mode of a start.
    #[tactic(auto, unfolding(crate::specs::States::after_of, classes::specs::Lists::pick))]
    pub fn acted(self, act: Option<Action>, name: usize) -> State
        ensures { stand_of result ≡ after_of (stand_of self) (answer_number act) name }
    {
        let st = self.moved(act);
        match act {
            Some(Action::EndHeading) => st.field_done().counted(name),
            Some(Action::OpenBody) => st.field_done().pushed().counted(name),
            Some(Action::CloseBody) => st.popped(),
            Some(Action::OpenGroup) => st.in_body(Part::Opened),
            Some(Action::CloseGroup) => st.in_body(Part::Closed),
            _ => st,
        }
    }
}

// ---- the declaration at hand

pub fn nothing() -> Pending
    ensures { hand_of result ≡ none }
{
    let nowhere = Span { start: 0, end: 0 };
    Pending {
        typed: nowhere,
        range: nowhere,
        name: nowhere,
        card: nowhere,
        tag: nowhere,
        ranged: false,
        carded: false,
        tagged: Tagged::OwnName,
        plugin: false,
        kind: Token::Reference,
    }
}

impl Pending {
    // Until they are read, the cardinality and the tag stand at the name.
    fn named(self, ranged: bool, x: Span) -> Pending
        ensures { hand_of result ≡ named_of (hand_of self) (flag_number ranged) x }
    {
        Pending {
            name: x,
            card: x,
            tag: x,
            ranged,
            carded: false,
            tagged: Tagged::OwnName,
            plugin: false,
            ..self
        }
    }

    // What an act takes of the token at hand. Without a range it stands at the type.
    #[tactic(auto, unfolding(crate::specs::Noting::pending_by, classes::specs::Lists::pick))]
    pub fn read(self, act: Option<Action>, token: Token, x: Span) -> Pending
        ensures { hand_of result ≡ pending_by (hand_of self) (answer_number act) (token_number token) x }
    {
        match act {
            Some(Action::TakeType) => Pending {
                typed: x,
                kind: token,
                ..self
            },
            Some(Action::TakeRange) => Pending { range: x, ..self },
            Some(Action::TakeName) => Pending {
                range: self.typed,
                ..self
            }
            .named(false, x),
            Some(Action::TakeNameAfterRange) => self.named(true, x),
            Some(Action::TakeCard) => Pending {
                card: x,
                carded: true,
                ..self
            },
            Some(Action::TakeTag) => Pending {
                tag: x,
                tagged: Tagged::Explicit,
                ..self
            },
            Some(Action::TakeNoTag) => Pending {
                tagged: Tagged::Tagless,
                ..self
            },
            Some(Action::TakePlugin) => Pending {
                plugin: true,
                ..self
            },
            _ => self,
        }
    }

    // Its numbers, in the order of the cells.
    fn numbers(self, extension: bool, parent: u32) -> [u32; definition_cells::WIDTH]
        ensures { result ≡ cells_of (hand_of self) (flag_number extension) parent }
    {
        [
            self.typed.start,
            self.typed.end,
            self.range.start,
            self.range.end,
            self.name.start,
            self.name.end,
            self.card.start,
            self.card.end,
            self.tag.start,
            self.tag.end,
            u32::from(self.ranged),
            u32::from(self.carded),
            self.tagged as u32,
            u32::from(self.plugin),
            u32::from(extension),
            parent,
        ]
    }
}

// ---- notes

// Numbers from a place on; nothing is stored past the end.
#[tactic(auto, using(classes::proofs::Stores::sets_more))]
fn put(cells: &mut [u32], at: usize, row: &[u32])
    requires { at + length row.now ≤ cell_width * parameter_limit }
    ensures { cells.new ≡ sets cells.old at row.now }
{
    for (i, x) in row.iter().enumerate() {
        numbers::set(cells, at + i, *x);
    }
}

// Whether a declaration in a context stands in an extension.
#[tactic(auto, unfolding(crate::specs::States::extension_flag, classes::specs::Lists::pick))]
fn is_extension(context: Option<Part>) -> bool
    ensures { flag_number result ≡ extension_flag (context_number_of context) }
{
    matches!(context, Some(Part::Opened | Part::Group))
}

// Whether an action ends a heading.
#[tactic(auto, unfolding(crate::specs::Noting::notes, classes::specs::Lists::pick))]
fn notes(act: Option<Action>) -> bool
    ensures { result ≡ notes (answer_number act) }
{
    matches!(act, Some(Action::EndHeading | Action::OpenBody))
}

// Notes a declaration where its heading ends, one of the first 256.
#[tactic(auto, unfolding(crate::specs::Noting::note_cells, classes::specs::Lists::pick))]
pub fn note(st: State, p: Pending, act: Option<Action>, cells: &mut [u32])
    ensures { cells.new ≡ note_cells (stand_of st) (hand_of p) (answer_number act) cells.old }
{
    if notes(act) && st.count < numbers::PARAMETER_LIMIT {
        let row = p.numbers(is_extension(st.context()), st.parent());
        put(cells, definition_cells::WIDTH * st.count, &row);
    }
}
