// A record's command, by its fields: kind 4 bits, user 1, write 1, draw 2, index 24, value 32, most significant first.
ghost use Rattle.std.specs.Prelude.{◌≡◌, ◌<◌};
ghost use Rattle.runs.specs.Bits.{flag};
ghost use Rattle.trace.specs.Commands.{command_of, is_plain, well_formed};

use crate::Command;
use registers::Access;

// The bits of user and write.
const USER: u32 = 59;

const WRITE: u32 = 58;

// The register that each kind sets: 2 CONTEXT, 3 CTRL, 4 KSEG, 5 KBASE_LO, 6 KBASE_HI, 7 ENABLE. Kinds 0 and 1 set none. A table, since six
// arms that differ in a number are no plainer.
const SETTINGS: [u32; 8] = [0, 0, 5, 1, 0, 3, 4, 2];

// How many values an index has, of 24 bits, and a value, of 32.
const INDEXES: u64 = 1 << 24;

const VALUES: u64 = 1 << 32;

// Whether a bit is set.
fn flag(bits: u64, bit: u32) -> bool
    requires { bit < 64 }
    ensures { result ≡ flag bit bits }
{
    (bits >> bit) % 2 == 1
}

// User, write and draw are 0.
fn is_plain(bits: u64) -> bool
    ensures { result ≡ is_plain bits }
{
    !flag(bits, USER) & !flag(bits, WRITE) & ((bits >> 56) % 4 == 0)
}

// Only a served access has user, write and draw; only a store has an index.
fn well_formed(bits: u64) -> bool
    ensures { result ≡ well_formed bits }
{
    let kind = (bits >> 60) % 16;
    let index = (bits >> 32) % INDEXES;
    (kind <= 7) & ((kind == 0) | is_plain(bits)) & ((kind == 1) | (index == 0))
}

// The command of a record, whose eight bytes are a number.
pub fn command_of(bits: u64) -> Command
    ensures { result ≡ command_of bits }
{
    if !well_formed(bits) {
        return Command::Malformed;
    }
    let index = ((bits >> 32) % INDEXES) as u32;
    let value = (bits % VALUES) as u32;
    match (bits >> 60) % 16 {
        0 => Command::Serve(Access {
            address: value,
            user: flag(bits, USER),
            write: flag(bits, WRITE),
            draw: ((bits >> 56) % 4) as u32,
        }),
        1 => Command::Store(index, value),
        kind => Command::Set(SETTINGS[kind as usize], value),
    }
}
