// The declarations of a definition, kept as numbers in a lent row; the layout is in specs/Cells.
#![tactic(auto)]

ghost use Rattle.std.specs.Prelude.{◌≡◌, ℕ, Option, ◌<◌};
ghost use Rattle.definition_cells.specs.Cells.{cell_at, run_at};
ghost use Rattle.definition_cells.specs.Places.{at_if, lesser, least_from};

// How many numbers a declaration has, and all declarations.
pub const WIDTH: usize = 16;

pub const ALL_CELLS: usize = WIDTH * numbers::PARAMETER_LIMIT;

// Where a declaration's runs stand among its numbers: a run's start, and its end after it.
pub const TYPE: usize = 0;

pub const RANGE: usize = 2;

pub const NAME: usize = 4;

pub const CARD: usize = 6;

pub const TAG: usize = 8;

// Whether a range and a cardinality are given, which tag, plugin or not, in an extension or not; its parent.
pub const RANGED: usize = 10;

pub const CARDED: usize = 11;

pub const TAGGED: usize = 12;

pub const PLUGGED: usize = 13;

pub const EXTENDED: usize = 14;

pub const PARENT: usize = 15;

// They are numbers and no enums, since a declaration is kept in a lent row of numbers: the library has no heap (`noted_at`).
// What these hold: given or true; its own name as tag, no tag, else a tag of its own; no parent.
pub const GIVEN: u32 = 1;

pub const OWN_NAME: u32 = 0;

pub const TAGLESS: u32 = 1;

pub const NO_PARENT: u32 = numbers::NONE16 as u32;

// The declarations noted of a text: the text, the row of their numbers, and how many they are. A run is lent as long as the
// text is, and no matter how long the row.
#[derive(Clone, Copy)]
pub struct Declarations<'t, 'c> {
    pub text: &'t [u8],
    pub cells: &'c [u32],
    pub count: usize,
}

impl<'t> Declarations<'t, '_> {
    // The k-th number of declaration i, 0 past the end.
    pub fn cell(&self, i: usize, k: usize) -> u32
        ensures { result ≡ cell_at self.now.cells.now i k }
    {
        let len = self.cells.len();
        if len / WIDTH < i || len <= k {
            return 0;
        }
        numbers::get_or(self.cells, WIDTH * i + k, 0)
    }

    // The run of declaration i whose start is its k-th number.
    #[tactic(auto, unfolding(crate::specs::Cells::run_at))]
    pub fn run(&self, i: usize, k: usize) -> &'t [u8]
        ensures { result.now ≡ run_at self.now.text.now self.now.cells.now i k }
    {
        let start = self.cell(i, k) as usize;
        let end = self.cell(i, k.saturating_add(1)) as usize;
        classes::part(self.text, start, end)
    }
}

// ---- places of faults

// The place of a fault, if there is one.
#[tactic(auto, unfolding(classes::specs::Lists::pick))]
pub fn at_if(hit: bool, at: u32) -> Option<usize>
    ensures { result ≡ at_if hit at }
{
    hit.then_some(at as usize)
}

// The lesser of two places.
#[tactic(auto, unfolding(crate::specs::Places::lesser))]
pub fn lesser(a: Option<usize>, b: Option<usize>) -> Option<usize>
    ensures { result ≡ lesser a b }
{
    match (a, b) {
        (Some(p), Some(q)) => Some(p.min(q)),
        _ => a.or(b),
    }
}

// The least of the places that a test finds among the first count declarations.
pub fn least_fault<F: Fn(usize) -> Option<usize>>(count: usize, fault: F) -> Option<usize>
    requires { (i : ℕ) → i < count → F.pre fault i }
    ensures { (f : ℕ → Option ℕ) → ((i : ℕ) (place : Option ℕ) → i < count → F.post fault i place → place ≡ f i) → result ≡ least_from f count 0 }
{
    let mut least = None;
    for i in 0..count {
        least = lesser(least, fault(i));
    }
    least
}
