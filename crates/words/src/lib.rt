// A text in memory that its caller lends, and what its lines are made of: bytes, numbers in decimal, the kinds' names. Each is added to the
// end of the text; the caller sees to the room.
#![tactic(auto)]

ghost use Rattle.std.specs.Prelude.{◌+◌, ◌≤◌, ◌≡◌, [], ◌∷◌, ◌++◌, length, take, drop};
ghost use Rattle.words.specs.Added.{room, Added};
ghost use Rattle.words.specs.Words.{decimal, kind_name, field, labelled};

use std::marker::Model;

// Bytes in the order in which they were added, in memory that the caller lends.
#[derive(Debug, Drop)]
pub struct Text<'a> {
    bytes: &'a mut [u8],
    end: usize,
}

// Clauses see the bytes that were added, those that are free, and the loan.
impl<'a> Model for Text<'a> {
    ghost use Rattle.std.specs.Prelude.{◌≤◌, length, take, drop};
    ghost use Rattle.words.specs.Added.{Lent};

    ghost Value = { Lent };

    ghost view = { λ text. record { added = take text.end text.bytes.now; free = drop text.end text.bytes.now; loan = text.bytes.ghost_name } };

    ghost invariant = { λ text. text.end ≤ length text.bytes.now };
}

impl<'a> Text<'a> {
    // A text of which nothing stands yet.
    pub fn new(bytes: &'a mut [u8]) -> Text<'a>
        ensures { (result.added ≡ []) × (result.free ≡ bytes.old) × (result.loan ≡ bytes.entry.ghost_name) }
    {
        Text { bytes, end: 0 }
    }

    // A text that goes on: the first `at` bytes stand already.
    pub fn going_on(bytes: &'a mut [u8], at: usize) -> Text<'a>
        requires { at ≤ length bytes.old }
        ensures { (result.added ≡ take at bytes.old) × (result.free ≡ drop at bytes.old) × (result.loan ≡ bytes.entry.ghost_name) }
    {
        Text { bytes, end: at }
    }

    // The memory, given back: what was added, and the free bytes as they were. What a caller's memory then holds is shown by a function that
    // gives it back in turn: the laws are `ends_behind` and `memory_put`.
    pub fn into_bytes(self) -> &'a mut [u8]
        ensures { (result.now ≡ self.entry.added ++ self.entry.free) × (result.ghost_name ≡ self.entry.loan) }
    {
        let Text { bytes, end: _ } = self;
        bytes
    }

    pub fn as_bytes(&self) -> &[u8]
        ensures { result.now ≡ self.now.added }
    {
        &self.bytes[..self.end]
    }

    // Bytes as they are.
    pub fn add(&mut self, word: &[u8])
        requires { length word.now ≤ room self.old }
        ensures { Added (length word.now) self.old word.now self.new }
    {
        let end = self.end + word.len();
        self.bytes[self.end..end].copy_from_slice(word);
        self.end = end;
    }

    // One byte.
    pub fn add_byte(&mut self, byte: u8)
        requires { 1 ≤ room self.old }
        ensures { Added 1 self.old (byte ∷ []) self.new }
    {
        self.bytes[self.end] = byte;
        self.end += 1;
    }

    // The digits of a number.
    #[tactic(auto, using(crate::proofs::DecimalLaws::decimal_fewest))]
    fn add_digits(&mut self, n: u64)
        requires { length (decimal n) ≤ room self.old }
        ensures { Added (length (decimal n)) self.old (decimal n) self.new }
    {
        let mut digits = [0u8; 20];
        let count = io::decimal(n, &mut digits);
        self.add(&digits[..count]);
    }

    // A number in decimal: of 64 bits, which has at most twenty digits, and of 32 bits, which has at most ten.
    #[tactic(auto, using(crate::proofs::DecimalLaws::decimal_20, std::proofs::lemmas::Grind::common_steps))]
    pub fn add_long(&mut self, n: u64)
        requires { 20 ≤ room self.old }
        ensures { Added 20 self.old (decimal n) self.new }
    {
        self.add_digits(n);
    }

    #[tactic(auto, using(crate::proofs::DecimalLaws::decimal_10, std::proofs::lemmas::Grind::common_steps))]
    pub fn add_number(&mut self, n: u32)
        requires { 10 ≤ room self.old }
        ensures { Added 10 self.old (decimal n) self.new }
    {
        self.add_digits(n as u64);
    }

    // A space and a number.
    #[tactic(auto, unfolding(crate::specs::Words::field))]
    pub fn add_field(&mut self, n: u32)
        requires { 11 ≤ room self.old }
        ensures { Added 11 self.old (field n) self.new }
    {
        self.add_byte(b' ');
        self.add_number(n);
    }

    // A word, then a space and a number.
    #[tactic(auto, unfolding(crate::specs::Words::labelled))]
    pub fn add_labelled(&mut self, word: &[u8], n: u32)
        requires { length word.now + 11 ≤ room self.old }
        ensures { Added (length word.now + 11) self.old (labelled word.now n) self.new }
    {
        self.add(word);
        self.add_field(n);
    }

    // The name of a kind; of a number that is no kind's, nothing.
    pub fn add_kind(&mut self, kind: u64)
        requires { 9 ≤ room self.old }
        ensures { Added 9 self.old (kind_name kind) self.new }
    {
        self.add(kind_name(kind));
    }
}

// The name of a kind; of a number that is no kind's, no bytes.
#[tactic(auto, unfolding(crate::specs::Words::kind_name))]
fn kind_name(kind: u64) -> &'static [u8]
    ensures name { result.now ≡ kind_name kind }
    ensures few { length result.now ≤ 9 }
{
    match kind {
        1 => b"total",
        2 => b"separator",
        3 => b"middle",
        4 => b"start",
        5 => b"last",
        6 => b"entire",
        7 => b"skip",
        _ => b"",
    }
}
