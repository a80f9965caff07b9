// Stores of many bytes into a lent slice, and whether bytes are zeros.
ghost use Rattle.std.specs.Prelude.{◌≡◌, ◌+◌, ◌-◌, ◌≤◌, length, replicate};
ghost use Rattle.numbers.specs.Store.{put, zeros};

// All of data from index `at` on. The archive may ask for memset and memcpy alone, and `copy_from_slice` makes a memmove.
pub fn put_bytes(group: &mut [u8], at: usize, data: &[u8])
    requires { at + length «data».now ≤ length group.old }
    ensures { group.new ≡ put group.old at «data».now }
{
    let place = &mut group[at..at + data.len()];
    for (i, &byte) in data.iter().enumerate() {
        place[i] = byte;
    }
}

// Zeros from index `from` up to index `to`, that one left as it is.
#[tactic(auto, using(crate::proofs::Stores::put_part))]
pub fn put_zeros(group: &mut [u8], from: usize, to: usize)
    requires { (from ≤ to) × (to ≤ length group.old) }
    ensures { group.new ≡ put group.old from (replicate (to - from) 0) }
{
    group[from..to].fill(0);
}

// Whether each byte is zero.
pub fn are_zeros(bytes: &[u8]) -> bool
    ensures { result ≡ zeros bytes.now }
{
    bytes.iter().all(|&byte| byte == 0)
}
