// States into lent slices: each number four bytes, most significant first. The leaves here have a `requires` on a slice's length,
// which the calls above have tested.
#![tactic(auto)]

ghost use Rattle.std.specs.Prelude.{◌≡◌, ◌∷◌, ℕ, ◌+◌, ◌*◌, ◌≤◌, length, replicate};
ghost use Rattle.numbers.specs.Store.{put};
ghost use Rattle.numbers.specs.Numbers.{bytes_of, in_bytes};
ghost use Rattle.states.specs.States.{reader_length, writer_length, phase_number, b4_number, reader_bytes, writer_bytes};
ghost use Rattle.storing.specs.ForContracts.{Follows};

use laying::Writer;
use reader::Reader;

// A number from index `at` on. One that stands there already is not stored again: the test keeps its four byte stores apart
// from the next number's, so that they become one, and the next call's load does not wait for them.
#[tactic(auto, using(numbers::proofs::InBytes::put_standing))]
fn keep(slice: &mut [u8], at: usize, n: u32)
    requires { at + 4 ≤ length slice.old }
    ensures { slice.new ≡ put slice.old at (bytes_of 4 n) }
{
    if numbers::number_at(slice, at) != n {
        numbers::put_number(slice, at, n);
    }
}

// The five numbers that an accepted group changes, in a slice that has the size already. The next number is the one that stands
// there and one more: of a number that is known to be small the compiler would store each byte by itself, of what it loads here all
// four at once. That a group was accepted is 1 whatever the state was.
pub fn put_next(slice: &mut [u8], r: Reader)
    requires { (length slice.old ≡ reader_length) × Follows slice.old r }
    ensures { slice.new ≡ reader_bytes r }
{
    let next = numbers::number_at(slice, 4) + 1;
    numbers::put_number(slice, 4, next);
    keep(slice, 8, r.phase as u32);
    keep(slice, 12, r.sum);
    keep(slice, 16, u32::from(r.warned));
    numbers::put_number(slice, 20, 1);
}

// The state's eight numbers, over all that stood in the slice.
pub fn put_writer(slice: &mut [u8], w: Writer)
    requires { length slice.old ≡ writer_length }
    ensures { slice.new ≡ writer_bytes w }
{
    keep(slice, 0, w.size);
    keep(slice, 4, w.next);
    keep(slice, 8, w.phase as u32);
    keep(slice, 12, w.sum);
    keep(slice, 16, w.filled);
    keep(slice, 20, w.entries);
    keep(slice, 24, u32::from(w.warned));
    keep(slice, 28, w.rest);
}

// A fresh state, a reader's or a writer's: its size, its next number, and zeros. What the slice held is not looked at.
#[tactic(auto, using(crate::proofs::Fresh::two_over_zeros))]
pub fn begin(slice: &mut [u8], size: u32, first: u32)
    requires { 8 ≤ length slice.old }
    ensures { (n : ℕ) → length slice.old ≡ 8 + 4 * n → slice.new ≡ in_bytes (size ∷ first ∷ replicate n 0) }
{
    numbers::bytes::put_zeros(slice, 0, slice.len());
    numbers::put_number(slice, 0, size);
    numbers::put_number(slice, 4, first);
}
