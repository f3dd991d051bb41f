// Why a call is refused, and the number that it then answers: document 01's table, and what later requests add to it.
ghost use Rattle.std.specs.Prelude.{◌≡◌};
ghost use Rattle.registers.specs.Numbers.{number_of};

#[derive(Clone, Copy, Debug, PartialEq, Eq)]
pub enum Refusal {
    // A register field exceeds its bits; of bytes also: their number is wrong.
    Registers,
    // A pool's size is 0 or above 4,096, or it runs past the last frame.
    Pool,
    // The buffer run is not 64 long; of bytes: their number is wrong.
    Buffer,
    // The table run is below 1,024 words, above 67,108,864, or no multiple of 1,024; of bytes: their number is wrong.
    Tables,
    // The draw is above 3.
    Draw,
    // What is never served: an access in test mode or with context 63, and so a guarded switch and a pass above 62 too.
    Service,
    // The word index is at or past the run's length.
    Index,
    // The register number is unknown, or the value is too large for it.
    Setting,
    // The trace record is malformed or cut short.
    Record,
    // Every frame of the pool is held.
    Full,
    // The frame is not held, or outside the pool.
    NotHeld,
    // A pass can't be made over the tree: it does not stand by itself, or a frame of the pool is mapped twice, or while it is not held.
    Tree,
}

// A pool that is wrong has the registers' number.
impl From<Refusal> for u32 {
    ghost from_gives = { λ refusal number. number ≡ number_of refusal };

    fn from(refusal: Refusal) -> u32 {
        match refusal {
            Refusal::Registers | Refusal::Pool => 1,
            Refusal::Buffer => 2,
            Refusal::Tables => 3,
            Refusal::Draw => 4,
            Refusal::Service => 5,
            Refusal::Index => 6,
            Refusal::Setting => 7,
            Refusal::Record => 8,
            Refusal::Full => 10,
            Refusal::NotHeld => 11,
            Refusal::Tree => 12,
        }
    }
}
