// A question asked of filled lists: plain rows in, plain rows out.
ghost use Rattle.std.specs.Prelude.{◌≡◌, Bool, [], ◌∷◌, ◌++◌, filter, take, drop, IfOk, OnOk, slice_index, slice_index_or};
ghost use Rattle.list.specs.Lists.{Row, same_row, stands};
ghost use Rattle.list.specs.Shapes.{rows_of};
ghost use Rattle.query.specs.Ask.{ask, passes, kept, at_columns, cut_to, beside, joined, less};
ghost use Rattle.query.specs.Rows.{rows_in, tables_in};
ghost use Rattle.query.specs.Shapes.{test_of, query_of};

use crate::{Part, Sign, Test};
use std::alloc::{AllocError, Global};

// The rows that the question that begins with the first of the parts gives on the lists; at most `left` parts deep.
pub(crate) fn ask_rows(
    heap: Global,
    parts: &[Part],
    left: u64,
    tables: &[Vec<Vec<u64>>],
) -> Result<Vec<Vec<u64>>, AllocError>
    ensures { IfOk result (λ v. rows_of v ≡ ask (query_of left parts.now) (tables_in tables.now)) }
{
    if left == 0 || parts.len() == 0 {
        return table(heap, tables, 0);
    }
    match parts[0].sign {
        Sign::Rows(t) => table(heap, tables, t),
        Sign::Keep(test) => {
            let rows = ask_rows(heap, &parts[1..], left - 1, tables)?;
            kept(heap, test, rows.as_slice())
        }
        Sign::Columns(columns) => {
            let rows = ask_rows(heap, &parts[1..], left - 1, tables)?;
            cut_to(heap, columns.as_slice(), rows.as_slice())
        }
        Sign::Join(second) => {
            let rows = ask_rows(heap, &parts[1..], left - 1, tables)?;
            let others = ask_rows(heap, behind(parts, second), left - 1, tables)?;
            joined(heap, rows.as_slice(), others.as_slice())
        }
        Sign::Union(second) => {
            let rows = ask_rows(heap, &parts[1..], left - 1, tables)?;
            let others = ask_rows(heap, behind(parts, second), left - 1, tables)?;
            united(heap, rows.as_slice(), others.as_slice())
        }
        Sign::Without(second) => {
            let rows = ask_rows(heap, &parts[1..], left - 1, tables)?;
            let others = ask_rows(heap, behind(parts, second), left - 1, tables)?;
            less(heap, rows.as_slice(), others.as_slice())
        }
    }
}

// A copy of the rows of a list; none past the last list.
pub(crate) fn table(
    heap: Global,
    tables: &[Vec<Vec<u64>>],
    t: usize,
) -> Result<Vec<Vec<u64>>, AllocError>
    ensures { IfOk result (λ v. rows_of v ≡ slice_index_or (tables_in tables.now) t []) }
{
    match tables.get(t) {
        Some(rows) => rows.clone(),
        None => Ok(Vec::new(heap)),
    }
}

// The rows that pass a test.
pub(crate) fn kept(heap: Global, test: Test, rows: &[Vec<u64>]) -> Result<Vec<Vec<u64>>, AllocError>
    ensures { IfOk result (λ v. rows_of v ≡ kept (test_of test) (rows_in rows.now)) }
{
    filtered(heap, rows, |row| passes(test, row))
}

// Of each row these columns.
pub(crate) fn cut_to(
    heap: Global,
    columns: &[usize],
    rows: &[Vec<u64>],
) -> Result<Vec<Vec<u64>>, AllocError>
    ensures { IfOk result (λ v. rows_of v ≡ cut_to columns.now (rows_in rows.now)) }
{
    rows.iter()
        .map(|row| at_columns(heap, columns, row.as_slice()))
        .try_collect(heap)
}

// Each of the rows followed by each of the others.
pub(crate) fn joined(
    heap: Global,
    rows: &[Vec<u64>],
    others: &[Vec<u64>],
) -> Result<Vec<Vec<u64>>, AllocError>
    ensures { IfOk result (λ v. rows_of v ≡ joined (rows_in rows.now) (rows_in others.now)) }
{
    let mut out = Vec::new(heap);
    for row in rows {
        add_beside(heap, &mut out, row.as_slice(), others)?;
    }
    Ok(out)
}

// The rows of both.
pub(crate) fn united(
    heap: Global,
    rows: &[Vec<u64>],
    others: &[Vec<u64>],
) -> Result<Vec<Vec<u64>>, AllocError>
    ensures { IfOk result (λ v. rows_of v ≡ rows_in rows.now ++ rows_in others.now) }
{
    rows.iter()
        .chain(others.iter())
        .map(|row| row.clone())
        .try_collect(heap)
}

// The rows that are none of the others.
pub(crate) fn less(
    heap: Global,
    rows: &[Vec<u64>],
    others: &[Vec<u64>],
) -> Result<Vec<Vec<u64>>, AllocError>
    ensures { IfOk result (λ v. rows_of v ≡ less (rows_in rows.now) (rows_in others.now)) }
{
    filtered(heap, rows, |row| !stands(row, others))
}

// The rows that are to be kept.
fn filtered<F: Fn(&[u64]) -> bool>(
    heap: Global,
    rows: &[Vec<u64>],
    keep: F,
) -> Result<Vec<Vec<u64>>, AllocError>
    requires { F.IsAlwaysCallable keep }
    ensures { (test : Row → Bool) → ((row b : _) → F.post keep row b → b ≡ test row.now) → IfOk result (λ v. rows_of v ≡ filter test (rows_in rows.now)) }
{
    rows.iter()
        .filter(|row| keep(row.as_slice()))
        .map(|row| row.clone())
        .try_collect(heap)
}

// Whether a row passes a test; a column past its end counts as 0.
pub(crate) fn passes(test: Test, row: &[u64]) -> bool
    ensures { result ≡ passes (test_of test) row.now }
{
    match test {
        Test::Same(a, b) => column(row, a) == column(row, b),
        Test::Differ(a, b) => column(row, a) != column(row, b),
        Test::Is(a, n) => column(row, a) == n,
        Test::IsNot(a, n) => column(row, a) != n,
    }
}

// Whether a row is one of these.
pub fn stands(row: &[u64], rows: &[Vec<u64>]) -> bool
    ensures { result ≡ stands row.now (rows_in rows.now) }
{
    rows.iter().any(|other| same_row(row, other.as_slice()))
}

// Whether two rows are equal.
pub(crate) fn same_row(a: &[u64], b: &[u64]) -> bool
    ensures { result ≡ same_row a.now b.now }
{
    a == b
}

// The parts from a place on; none past the end.
fn behind(parts: &[Part], k: usize) -> &[Part]
    ensures { result.now ≡ drop k parts.now }
{
    &parts[k.min(parts.len())..]
}

// The numbers of a row in these columns.
fn at_columns(heap: Global, columns: &[usize], row: &[u64]) -> Result<Vec<u64>, AllocError>
    ensures { IfOk result (λ v. v.items ≡ at_columns columns.now row.now) }
{
    columns.iter().map(|a| column(row, *a)).collect(heap)
}

// The number in a column; 0 past the end of the row.
fn column(row: &[u64], a: usize) -> u64
    ensures { result ≡ slice_index row.now a }
{
    row.get(a).copied().unwrap_or(0)
}

// Adds a row followed by each of the others.
fn add_beside(
    heap: Global,
    out: &mut Vec<Vec<u64>>,
    row: &[u64],
    others: &[Vec<u64>],
) -> Result<(), AllocError>
    ensures { OnOk result (rows_of out.new ≡ rows_of out.old ++ beside row.now (rows_in others.now)) }
{
    for other in others {
        let mut wide = Vec::from_slice(heap, row)?;
        wide.extend_from_slice(other.as_slice())?;
        out.push(wide)?;
    }
    Ok(())
}
