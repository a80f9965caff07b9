// One column of the third code's buffer: its sums, what a row lacks, which row is wrong. The leaves here require what the calls
// above have tested.
#![tactic(auto)]

ghost use Rattle.std.specs.Prelude.{◌≡◌, ◌+◌, ◌*◌, ◌≤◌, ◌<◌, ◌^◌, length};
ghost use Rattle.column.specs.Column.{row_count, column, first_sum, second_sum, apart, lacking, wrong_row};
ghost use Rattle.column.specs.Wrong.{IsWrong};

use field::Field;
use field::tables::Logarithms;

// The rows of a column.
pub const ROW_COUNT: usize = 46;

pub const LAST_ROW: usize = 45;

// The sums of the two rules.
#[derive(Clone, Copy, Debug, Default, PartialEq, Eq)]
pub struct Sums {
    pub first: u8,
    pub second: u8,
}

// Which row of a column is wrong: none, one, or so many that no single change mends the column.
#[derive(Clone, Copy, Debug, PartialEq, Eq)]
pub enum Wrong {
    NoRow,
    Row(usize),
    Hopeless,
}

// Where the byte of row i and column c stands.
pub fn place(n: usize, i: usize, c: usize) -> usize
    requires { (i < row_count) × (c < n) × (row_count * n < 2 ^ 64) }
    ensures { (result ≡ i * n + c) × (result < row_count * n) }
{
    i * n + c
}

// The logarithm of the sum of two rows' weights.
pub fn apart_of(field: &Field, i: usize, j: usize) -> usize
    requires { (i < row_count) × (j < row_count) }
    ensures { (result ≡ apart i j) × (result < 255) }
{
    field.logarithms.of(field.powers.at(LAST_ROW - i) ^ field.powers.at(LAST_ROW - j))
}

impl Sums {
    // The sums of column c. The second by doubling: each row's byte is multiplied by α once for every row after it.
    pub fn of(rows: &[u8], n: usize, c: usize) -> Self
        requires { (c < n) × (length rows.now ≡ row_count * n) }
        ensures { (result.first ≡ first_sum (column rows.now n c)) × (result.second ≡ second_sum (column rows.now n c)) }
    {
        let mut first = 0;
        let mut second = 0;
        for i in 0..ROW_COUNT {
            let byte = rows[place(n, i, c)];
            first ^= byte;
            second = field::times_alpha(second) ^ byte;
        }
        Self { first, second }
    }

    // What row i lacks where rows i and j are to be restored and the sum of their weights is α^k.
    pub fn lacking(self, field: &Field, k: usize, i: usize, j: usize) -> u8
        requires { (i < row_count) × (j < row_count) × (k ≡ apart i j) × (k ≤ 255) }
        ensures { result ≡ lacking i j self.first self.second }
    {
        field.times(255 - k, self.second ^ field.times(LAST_ROW - j, self.first))
    }

    // The wrong row of a column of these sums.
    #[tactic(auto, unfolding(crate::specs::Column::wrong_row, crate::specs::Column::row_of_weight), using(numbers::proofs::Tests::tests))]
    pub fn wrong_row(self, logarithms: &Logarithms) -> Wrong
        ensures { IsWrong result (wrong_row self.first self.second) }
    {
        if self == Self::default() {
            return Wrong::NoRow;
        }
        if self.first == 0 || self.second == 0 {
            return Wrong::Hopeless;
        }
        let d = (logarithms.of(self.second) + (255 - logarithms.of(self.first))) % 255;
        if d > LAST_ROW {
            return Wrong::Hopeless;
        }
        Wrong::Row(LAST_ROW - d)
    }
}
