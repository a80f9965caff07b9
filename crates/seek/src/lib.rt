// Change request 2026-09: where a block begins among a group's rows, twelve bytes each. Blocks are counted by the rows alone,
// so any bytes will do.
#![tactic(auto)]

ghost use Rattle.std.specs.Prelude.{◌≡◌, ◌/◌, length};
ghost use Rattle.seek.specs.Find.{begins, beginning, find_call};

// Whether a row of this kind begins a block: a start's or an entire record's.
fn begins(kind: u32) -> bool
    ensures { result ≡ begins kind }
{
    kind == 4 || kind == 6
}

// Where the b-th block of these rows begins, b from 0; none where it begins elsewhere.
fn beginning_among(rows: &[u8], b: u32) -> Option<u32>
    ensures { result ≡ beginning rows.now 0 (length rows.now / 12) b }
{
    let mut still = b;
    for row in 0..rows.len() / 12 {
        let at = 12 * row;
        if begins(numbers::number_at(rows, at)) {
            if still == 0 {
                return Some(numbers::number_at(rows, at + 4));
            }
            still -= 1;
        }
    }
    None
}

// The offset of the group where block b begins, from a group's rows and the number of blocks begun before it; none where it doesn't
// begin there.
#[tactic(auto, unfolding(crate::specs::Find::find_call), using(numbers::proofs::Tests::tests))]
pub fn find(rows: &[u8], before: u32, b: u32) -> Option<u32>
    ensures { result ≡ find_call rows.now before b }
{
    beginning_among(rows, b.checked_sub(before)?)
}
