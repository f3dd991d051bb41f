// What a C host calls. Registers, buffer and tables are bytes, most significant first; an answer is one number of 64 bits.
#![tactic(auto)]

pub mod guarded_setting;
pub mod raw_access;
pub mod served_access;
pub mod start;
pub mod table_store;

ghost use Rattle.std.specs.Prelude.{true, ◌≡◌, ◌^◌, ◌≤◌, ◌<◌, length};
ghost use Rattle.wire.specs.Wire.{AreBytes};
ghost use Rattle.entry.specs.Address.{vpn_of};
ghost use Rattle.access.specs.Translation.{Accepted, translate};
ghost use Rattle.mmu_c.specs.Answers.{access_answer, answer_of, outcome_fits, refusal_answer, reply_answer, translation_answer};
ghost use Rattle.mmu_c.specs.Location.{Fetched};
ghost use Rattle.mmu_c.specs.Runs.{BUFFER_BYTES, REGISTER_BYTES};
ghost use Rattle.mmu_c.specs.Runs.{buffer_of, buffer_taken, register_bytes, registers_of, registers_taken, tables_taken};

use access::Translation;
use registers::{Access, Outcome, Refusal, Registers, Reply};

// The weights of the answer's fields.
const BIT_32: u64 = 1 << 32;

const BIT_48: u64 = 1 << 48;

const BIT_52: u64 = 1 << 52;

const BIT_53: u64 = 1 << 53;

const BIT_54: u64 = 1 << 54;

const BIT_56: u64 = 1 << 56;

// How many bytes the registers have, the buffer, and the shortest and the longest tables; the shortest is also their step.
const REGISTER_BYTES: usize = 44;

const BUFFER_BYTES: usize = 512;

const LEAST_TABLE_BYTES: usize = 4096;

const MOST_TABLE_BYTES: usize = 65536;

fn refusal_answer(number: u32) -> u64
    requires { number < 2 ^ 8 }
    ensures { result ≡ refusal_answer number }
{
    number as u64 * BIT_56
}

// The answer of a call: what it gives, or its refusal's.
fn answer_of(given: Result<u64, Refusal>) -> u64
    ensures { result ≡ answer_of given }
{
    match given {
        Ok(answer) => answer,
        Err(refusal) => refusal_answer(u32::from(refusal)),
    }
}

// The bits of an access's answer.
fn access_answer(
    address: u32,
    value: u32,
    loads: u32,
    located: bool,
    interrupts: bool,
    exception: bool,
) -> u64
    requires { (value < 2 ^ 16) × (loads < 16) }
    ensures { result ≡ access_answer address value loads located interrupts exception }
{
    let flags = u64::from(located) * BIT_52
        + u64::from(interrupts) * BIT_53
        + u64::from(exception) * BIT_54;
    address as u64 + value as u64 * BIT_32 + loads as u64 * BIT_48 + flags
}

fn translation_answer(t: Translation) -> u64
    requires { t.value < 2 ^ 16 }
    ensures { result ≡ translation_answer t }
{
    let physical = t.physical;
    match physical {
        Some(address) => access_answer(address, t.value, 0, true, t.interrupt, t.exception),
        None => access_answer(0, t.value, 0, false, t.interrupt, t.exception),
    }
}

// The bits of a reply's answer.
fn reply_answer(reply: Reply) -> u64
    requires { (outcome_fits reply.outcome ≡ true) × (reply.loads < 16) }
    ensures { result ≡ reply_answer reply }
{
    let outcome = reply.outcome;
    match outcome {
        Outcome::At(address) => access_answer(address, 0, reply.loads, true, false, false),
        Outcome::Fault(value) => access_answer(0, value, reply.loads, false, false, true),
        Outcome::Done(emptied) => emptied as u64,
        Outcome::Refused(number) => refusal_answer(number),
    }
}

fn registers_of(bytes: &[u8]) -> Registers
    requires { length bytes.now ≡ REGISTER_BYTES }
    ensures registers { result ≡ registers_of bytes.now }
    ensures bytes { AreBytes bytes.now }
{
    let mut words = [0u32; registers::FIELDS];
    wire::decode(bytes, &mut words);
    Registers::from(words)
}

fn put_registers(bytes: &mut [u8], r: Registers)
    requires { length bytes.old ≡ REGISTER_BYTES }
    ensures { bytes.new ≡ register_bytes r }
{
    let words = <[u32; registers::FIELDS]>::from(r);
    wire::encode(&words, bytes);
}

// 44 bytes, and no field exceeds its bits.
fn registers_taken(bytes: &[u8]) -> bool
    ensures { result ≡ registers_taken bytes.now }
{
    if bytes.len() != REGISTER_BYTES {
        return false;
    }
    let r = registers_of(bytes);
    registers::registers_fit(r)
}

fn buffer_taken(bytes: &[u8]) -> bool
    ensures { result ≡ buffer_taken bytes.now }
{
    bytes.len() == BUFFER_BYTES
}

// 4,096 to 65,536 bytes, in multiples of 4,096.
fn tables_taken(bytes: &[u8]) -> bool
    ensures { result ≡ tables_taken bytes.now }
{
    let n = bytes.len();
    (LEAST_TABLE_BYTES <= n) & (n <= MOST_TABLE_BYTES) & (n % LEAST_TABLE_BYTES == 0)
}

// Fills the slots of a page's location from the buffer's bytes, and no other.
fn fetch(buffer: &[u8], slots: &mut [u64], vpn: u32)
    requires { (length buffer.now ≡ BUFFER_BYTES) × (length slots.old ≡ 64) }
    ensures { Fetched buffer.now slots.new vpn }
{
    for set in 0..4 {
        let slot = entry::slot_of(set, vpn) as usize;
        slots[slot] = wire::read(buffer, slot);
    }
}

// A raw access, once it is accepted. It looks at the slots of its page's location alone.
fn first_try(r: Registers, buffer: &[u8], slots: &mut [u64], a: Access) -> Translation
    requires { Accepted r (buffer_of buffer.now) a × (length buffer.now ≡ BUFFER_BYTES) × (length slots.old ≡ 64) }
    ensures answer { result ≡ translate r (buffer_of buffer.now) a }
    ensures slots { Fetched buffer.now slots.new (vpn_of a.address) }
{
    let vpn = entry::vpn_of(a.address);
    fetch(buffer, slots, vpn);
    access::translate(r, slots, a)
}
