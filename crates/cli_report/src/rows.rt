// The rows of a message that was accepted.
ghost use Rattle.std.specs.Prelude.{◌≡◌, ◌+◌, ◌*◌, get_or};
ghost use Rattle.numbers.specs.Limits.{row_width};

// A row's numbers.
#[derive(Clone, Copy)]
pub struct Row {
    pub parameter: u32,
    pub parent: u32,
    pub start: u32,
    pub end: u32,
    pub index: u32,
}

// Rows, five numbers each, and how many they are.
#[derive(Clone, Copy)]
pub struct Rows<'a> {
    pub numbers: &'a [u32],
    pub count: usize,
}

impl Rows<'_> {
    // The k-th number of a row, 0 where it isn't there.
    fn number(&self, i: usize, k: usize) -> u32
        ensures { result ≡ get_or self.now.numbers.now (row_width * i + k) 0 }
    {
        let at = i.saturating_mul(numbers::ROW_WIDTH).saturating_add(k);
        numbers::get_or(self.numbers, at, 0)
    }

    // A row. One that isn't there has zeros.
    pub fn row(&self, i: usize) -> Row
        ensures parameter { result.parameter ≡ get_or self.now.numbers.now (row_width * i) 0 }
        ensures parent { result.parent ≡ get_or self.now.numbers.now (row_width * i + 1) 0 }
        ensures start { result.start ≡ get_or self.now.numbers.now (row_width * i + 2) 0 }
        ensures end { result.end ≡ get_or self.now.numbers.now (row_width * i + 3) 0 }
        ensures index { result.index ≡ get_or self.now.numbers.now (row_width * i + 4) 0 }
    {
        Row {
            parameter: self.number(i, numbers::ROW_PARAMETER),
            parent: self.number(i, numbers::ROW_PARENT),
            start: self.number(i, numbers::ROW_START),
            end: self.number(i, numbers::ROW_END),
            index: self.number(i, numbers::ROW_INDEX),
        }
    }
}
