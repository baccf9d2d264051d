// What a person reads of an answer: a refusal with its line, and rows and records as tables.
// All is written on a page.
#![tactic(auto)]

mod refusals;
mod rows;
mod tables;

pub use refusals::{Source, put_refusal, put_unknown};
pub use rows::{Row, Rows};
pub use tables::{
    RecordTable, RowTable, Table, put_bounds, put_int, put_line, put_numbers, widths,
};
