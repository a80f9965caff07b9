// The field of the third code: change request 2026-08. Multiplying by α without a table, and by α^k with both tables, which a
// caller binds once and lends.
#![tactic(auto)]

pub mod tables;

ghost use Rattle.std.specs.Prelude.{◌≡◌, ◌≤◌};
ghost use Rattle.field.specs.Field.{times_alpha, times};
ghost use Rattle.field.specs.Tables.{power_table, logarithm_table};

use crate::tables::{Logarithms, Powers};

// α times a byte. Without a jump or a choice: every byte of the buffer waits for it.
pub fn times_alpha(byte: u8) -> u8
    ensures { result ≡ times_alpha byte }
{
    (byte % 128 * 2) ^ (byte / 128 * 29)
}

// The field by its two tables.
#[derive(Clone, Copy, Debug)]
pub struct Field {
    pub powers: Powers,
    pub logarithms: Logarithms,
}

impl Field {
    pub fn new() -> Self
        ensures { (result.powers.entries ≡ power_table) × (result.logarithms.entries ≡ logarithm_table) }
    {
        Self {
            powers: Powers::new(),
            logarithms: Logarithms::new(),
        }
    }

    // α^k times a byte.
    #[tactic(auto, using(crate::proofs::FieldLaws::by_tables, crate::proofs::Adding::times_zero))]
    pub fn times(&self, k: usize, byte: u8) -> u8
        requires { k ≤ 255 }
        ensures { result ≡ times k byte }
    {
        if byte == 0 {
            return 0;
        }
        self.powers.at((self.logarithms.of(byte) + k) % 255)
    }
}
