// What is done to one column of the buffer: a row restored, two rows, a wrong byte mended.
ghost use Rattle.std.specs.Prelude.{◌≡◌, ◌*◌, ◌<◌, length, ⊤};
ghost use Rattle.column.specs.Column.{row_count, Column, column, restored_one, apart, restored_two, none_mends, wrong_in, mended};
ghost use Rattle.restoring.specs.Turns.{Turn};

use column::{Sums, Wrong};
use field::Field;
use field::tables::Logarithms;

// A step does one thing to a column, where it may, and nothing to the other columns. Named rows are taken out before the sums are
// made: what they held is not looked at. n stays beside the rows: a struct of both would be two, one lent to read and one to write,
// and each call that writes would promise besides that n stays.
pub(crate) trait Step {
    ghost does: { Self → Column → Column };

    ghost may: { Self → Column → Type 0 };

    fn take(&self, rows: &mut [u8], n: usize, c: usize)
        requires there { (c < n) × (length rows.old ≡ row_count * n) }
        requires may { may self.now (column rows.old n c) }
        ensures { Turn (does self.now) n c rows.old rows.new };
}

// A row restored.
#[derive(Clone, Copy)]
pub(crate) struct One {
    pub(crate) row: usize,
    ghost there: { row < row_count },
}

// Two rows restored; the sum of their weights is α^distance.
#[derive(Clone, Copy)]
pub(crate) struct Two<'a> {
    pub(crate) field: &'a Field,
    pub(crate) first: usize,
    pub(crate) second: usize,
    pub(crate) distance: usize,
    ghost there: { (first < row_count) × (second < row_count) × (first ≡ second → ⊥) },
    ghost weights: { (distance ≡ apart first second) × (distance < 255) },
}

// A wrong byte mended.
#[derive(Clone, Copy)]
pub(crate) struct Mending<'a> {
    pub(crate) logarithms: &'a Logarithms,
}

impl Step for One {
    ghost does = { λ s. restored_one s.row };

    ghost may = { λ s col. ⊤ };

    fn take(&self, rows: &mut [u8], n: usize, c: usize) {
        let at = column::place(n, self.row, c);
        rows[at] = 0;
        rows[at] = Sums::of(rows, n, c).first;
    }
}

impl<'a> Step for Two<'a> {
    ghost does = { λ s. restored_two s.first s.second };

    ghost may = { λ s col. ⊤ };

    fn take(&self, rows: &mut [u8], n: usize, c: usize) {
        let first = column::place(n, self.first, c);
        let second = column::place(n, self.second, c);
        rows[first] = 0;
        rows[second] = 0;
        let s = Sums::of(rows, n, c);
        let x = s.lacking(self.field, self.distance, self.first, self.second);
        rows[first] = x;
        rows[second] = s.first ^ x;
    }
}

impl<'a> Step for Mending<'a> {
    ghost does = { λ s. mended };

    ghost may = { λ s col. wrong_in col < none_mends };

    fn take(&self, rows: &mut [u8], n: usize, c: usize) {
        let s = Sums::of(rows, n, c);
        if let Wrong::Row(i) = s.wrong_row(self.logarithms) {
            rows[column::place(n, i, c)] ^= s.first;
        }
    }
}
