// The one refusal, and the number that programs tell it by.
ghost use Rattle.std.specs.Prelude.{◌≡◌};
ghost use Rattle.mups16.specs.Answers.{number_of};
ghost use Rattle.mups16.specs.declared.refusal.Refusal.TheVariants.{WrongLength};

use std::array::TryFromSliceError;

// Why a call is refused: its run of entries isn't 8,192 long. There is no other refusal.
#[derive(Clone, Copy, Debug, PartialEq, Eq)]
pub enum Refusal {
    WrongLength = 2,
}

impl From<Refusal> for u32 {
    ghost from_gives = { λ refusal number. number ≡ number_of refusal };

    fn from(refusal: Refusal) -> u32 {
        refusal as u32
    }
}

// A call's `?`, where the lent run doesn't become one of 8,192 entries.
impl From<TryFromSliceError> for Refusal {
    ghost from_gives = { λ _ refusal. refusal ≡ WrongLength };

    fn from(_error: TryFromSliceError) -> Refusal {
        Refusal::WrongLength
    }
}
