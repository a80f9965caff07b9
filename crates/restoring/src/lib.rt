// The whole buffer of the third code, column by column: which column fails a rule, rows restored, columns mended. The leaves here
// require what the calls above have tested: 46 rows of length n, and rows that are there.
#![tactic(auto)]

mod steps;

ghost use Rattle.std.specs.Prelude.{◌≡◌, not, ℕ, ◌*◌, ◌≤◌, ◌<◌, length};
ghost use Rattle.column.specs.Column.{row_count, column, lawful, restored_one, restored_two, mended, mendable};
ghost use Rattle.restoring.specs.Rows.{each_column, first_failing, IsFirstFailing};

use crate::steps::{Mending, One, Step, Two};
use column::{Sums, Wrong};
use field::Field;
use field::tables::Logarithms;

// A step done to every column.
fn done_to_all<S: Step>(step: &S, rows: &mut [u8], n: usize)
    requires size { length rows.old ≡ row_count * n }
    requires may { (c : ℕ) → c < n → S.may step.now (column rows.old n c) }
    ensures { rows.new ≡ each_column (S.does step.now) n rows.old }
{
    for c in 0..n {
        step.take(rows, n, c);
    }
}

// Row i restored in every column.
pub fn restore_row(rows: &mut [u8], n: usize, i: usize)
    requires { (i < row_count) × (length rows.old ≡ row_count * n) }
    ensures { rows.new ≡ each_column (restored_one i) n rows.old }
{
    done_to_all(&One { row: i }, rows, n);
}

// Rows i and j restored in every column.
pub fn restore_both(rows: &mut [u8], n: usize, i: usize, j: usize)
    requires { (i < row_count) × (j < row_count) × (i ≡ j → ⊥) × (length rows.old ≡ row_count * n) }
    ensures { rows.new ≡ each_column (restored_two i j) n rows.old }
{
    let field = Field::new();
    let distance = column::apart_of(&field, i, j);
    done_to_all(
        &Two {
            field: &field,
            first: i,
            second: j,
            distance,
        },
        rows,
        n,
    );
}

// Every column mended, where none is beyond it.
pub fn mend_columns(rows: &mut [u8], logarithms: &Logarithms, n: usize)
    requires { (length rows.old ≡ row_count * n) × (n ≤ first_failing mendable rows.old n 0 n) }
    ensures { rows.new ≡ each_column mended n rows.old }
{
    done_to_all(&Mending { logarithms }, rows, n);
}

// Whether no single change mends column c.
fn is_hopeless(rows: &[u8], logarithms: &Logarithms, n: usize, c: usize) -> bool
    requires { (c < n) × (length rows.now ≡ row_count * n) }
    ensures { result ≡ not (mendable (column rows.now n c)) }
{
    matches!(Sums::of(rows, n, c).wrong_row(logarithms), Wrong::Hopeless)
}

// Whether column c breaks a rule.
#[tactic(auto, unfolding(column::specs::Column::lawful), using(numbers::proofs::Tests::tests))]
fn is_broken(rows: &[u8], n: usize, c: usize) -> bool
    requires { (c < n) × (length rows.now ≡ row_count * n) }
    ensures { result ≡ not (lawful (column rows.now n c)) }
{
    Sums::of(rows, n, c) != Sums::default()
}

// The first column that no single change mends.
pub fn first_hopeless(rows: &[u8], logarithms: &Logarithms, n: usize) -> Option<usize>
    requires { length rows.now ≡ row_count * n }
    ensures { IsFirstFailing mendable rows.now n result }
{
    (0..n).find(|c| is_hopeless(rows, logarithms, n, *c))
}

// The first column that breaks a rule.
pub fn first_broken(rows: &[u8], n: usize) -> Option<usize>
    requires { length rows.now ≡ row_count * n }
    ensures { IsFirstFailing lawful rows.now n result }
{
    (0..n).find(|c| is_broken(rows, n, *c))
}
