// The rows of a reading, written into a lent slice. A number past the slice's end is not written.
#![tactic(auto)]

ghost use Rattle.std.specs.Prelude.{◌≡◌, [], ◌∷◌, ◌-◌, ◌*◌, ◌<◌, set};
ghost use Rattle.std.proofs.lemmas.List.Edits.{sets};
ghost use Rattle.numbers.specs.Limits.{row_width};
ghost use Rattle.message_rules.specs.Rows.{cells};
ghost use Rattle.message_rows.specs.Filled.{Small, row_of, with_ends};

// Parameter, parent row, start, end, index: the numbers of a row in the order of the places ROW_PARAMETER and on.
#[derive(Clone, Copy)]
pub struct Row {
    pub parameter: usize,
    pub parent: usize,
    pub start: usize,
    pub end: usize,
    pub index: usize,
}

// In the reader's first pass no rows are lent, which is told first. Places and row numbers are small, as messages are.
pub fn put_row(rows: &mut [u32], row: usize, r: Row)
    requires small { Small r }
    requires row_bound { row < 4294967296 }
    ensures { rows.new ≡ sets rows.old (row_width * row) (cells (row_of r ∷ [])) }
{
    if rows.is_empty() {
        return;
    }
    let i = numbers::ROW_WIDTH * row;
    let cells = [
        r.parameter as u32,
        r.parent as u32,
        r.start as u32,
        r.end as u32,
        r.index as u32,
    ];
    if i + numbers::ROW_WIDTH <= rows.len() {
        rows[i..i + numbers::ROW_WIDTH].copy_from_slice(&cells);
        return;
    }
    for k in 0..numbers::ROW_WIDTH {
        numbers::set(rows, i + k, cells[k]);
    }
}

// The same end for each row from first up to last. Both are small, as messages are.
pub fn put_ends(rows: &mut [u32], first: usize, last: usize, end: usize)
    requires { (last < 4294967296) × (end < 4294967296) }
    ensures { rows.new ≡ with_ends rows.old first (last - first) end }
{
    for k in first..last {
        numbers::set(rows, numbers::ROW_WIDTH * k + numbers::ROW_END, end as u32);
    }
}
