// What every call tells: that it is accepted, with its outcome and three numbers more, or that it is refused, with the refusal
// and the place.
#![tactic(auto)]

pub mod refusals;

ghost use Rattle.std.specs.Prelude.{◌≡◌, ℕ};
ghost use Rattle.answer.specs.Results.{refused, told_of, plainly_told};

// A refusal, and the entry, block or column where it stands; 0 where it has no such place.
#[derive(Clone, Copy, Debug, PartialEq, Eq)]
pub struct Refused<R> {
    pub refusal: R,
    pub place: u32,
}

// A refusal that has no place.
impl<R> From<R> for Refused<R> {
    ghost from_gives = { λ r e. e ≡ refused r 0 };

    fn from(refusal: R) -> Refused<R> {
        Refused { refusal, place: 0 }
    }
}

// What an accepted call tells: its outcome and three numbers more, which are 0 where a call has none.
#[derive(Clone, Copy, Debug, Default, PartialEq, Eq)]
pub struct Outcome {
    pub outcome: u32,
    pub number: u32,
    pub entries: u32,
    pub taken: u32,
}

pub type Told<R> = Result<Outcome, Refused<R>>;

// What a call tells that has no more to tell than that it is accepted.
pub fn plainly_told<T: Copy, R: Copy>(done: Result<T, R>) -> Told<R>
    ensures { (number : R → ℕ) → told_of number result ≡ plainly_told number done }
{
    done?;
    Ok(Outcome::default())
}
