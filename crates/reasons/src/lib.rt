// Change request 2026-07: the numbers of a reason. What they are for each refusal of reading, and that they are true, is said and proved
// here; how they are found stands above, in the crate finding.
#![tactic(auto)]

ghost use Rattle.std.specs.Prelude.{◌≡◌};
ghost use Rattle.reasons.specs.Reasons.{reason, no_reason};

// The numbers of a reason: what was found, the least and the greatest allowed, and the permitted kinds.
#[derive(Clone, Copy, Debug, PartialEq, Eq)]
pub struct Reason {
    pub found: u64,
    pub least: u64,
    pub greatest: u64,
    pub kinds: u64,
}

impl Reason {
    pub fn of(found: u64, least: u64, greatest: u64) -> Reason
        ensures { result ≡ reason found least greatest 0 }
    {
        Reason {
            found,
            least,
            greatest,
            kinds: 0,
        }
    }

    // Where a rule has no such number.
    pub fn none() -> Reason
        ensures { result ≡ no_reason }
    {
        Reason::of(0, 0, 0)
    }
}
