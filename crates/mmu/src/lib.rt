// The unit's access calls, with their refusals.
#![tactic(auto)]

ghost use Rattle.std.specs.Prelude.{◌≡◌, ◌≤◌, length};
ghost use Rattle.registers.specs.Numbers.{refusal_number};
ghost use Rattle.registers.specs.Refusals.{draw_fits};
ghost use Rattle.page_table.specs.Stretches.{ROOTS};
ghost use Rattle.slots.specs.Buffer.{Buffer};
ghost use Rattle.access.specs.Translation.{Accepted};
ghost use Rattle.mmu.specs.RawAccess.{RawAccessGives, raw_refusal};
ghost use Rattle.mmu.specs.ServedAccess.{AccessGives, RetryGives, ServedAccessGives, may_be_served, served_refusal, service_refusal};
ghost use Rattle.mmu.specs.ServedAccess.{tried_reply};

use access::{MISS, Translation};
use page_table::{Found, Walk};
use registers::{Access, Outcome, Refusal, Registers, Reply};

// The number of the register SELECT.
const SELECT: u32 = 6;

// A raw access that was refused: the refusal's number, and the registers received.
#[derive(Clone, Copy)]
pub struct Refused {
    pub number: u32,
    pub registers: Registers,
}

// The draw is the number of a set.
fn draw_fits(draw: u32) -> bool
    ensures { result ≡ draw_fits draw }
{
    draw <= 3
}

fn raw_refusal(r: Registers, buffer: &[u64], a: Access) -> Result<(), Refusal>
    ensures { refusal_number result ≡ raw_refusal r (Buffer.Wide buffer.now) a }
{
    if !registers::registers_fit(r) {
        return Err(Refusal::Registers);
    }
    if !slots::buffer_fits(buffer) {
        return Err(Refusal::Buffer);
    }
    if !draw_fits(a.draw) {
        return Err(Refusal::Draw);
    }
    Ok(())
}

// One raw access.
pub fn raw_access(
    r: Registers,
    buffer: &[u64],
    address: u32,
    user: bool,
    write: bool,
    draw: u32,
) -> Result<Translation, Refused>
    ensures { RawAccessGives r (Buffer.Wide buffer.now)
        (record { address = address; user = user; write = write; draw = draw }) result }
{
    let a = Access {
        address,
        user,
        write,
        draw,
    };
    if let Err(refusal) = raw_refusal(r, buffer, a) {
        return Err(Refused {
            number: u32::from(refusal),
            registers: r,
        });
    }
    Ok(access::translate(r, buffer, a))
}

// Test mode and context 63 are not served.
fn may_be_served(r: Registers) -> bool
    ensures { result ≡ may_be_served r }
{
    (r.test == 0) & (r.context != 63)
}

// The last two of a served access's checks.
pub fn service_refusal(r: Registers, draw: u32) -> Result<(), Refusal>
    ensures { refusal_number result ≡ service_refusal r draw }
{
    if !draw_fits(draw) {
        return Err(Refusal::Draw);
    }
    if !may_be_served(r) {
        return Err(Refusal::Service);
    }
    Ok(())
}

fn served_refusal(r: Registers, buffer: &[u64], words: &[u32], a: Access) -> Result<(), Refusal>
    ensures { refusal_number result ≡ served_refusal
        (record { registers = r; buffer = Buffer.Wide buffer.now; words = words.now }) a }
{
    registers::machine_refusal(
        registers::registers_fit(r),
        slots::buffer_fits(buffer),
        page_table::tables_fit(words),
    )?;
    service_refusal(r, a.draw)
}

// The address that a try gave, or its exception value as the fault.
pub fn tried_reply(t: Translation, loads: u32) -> Reply
    ensures { result ≡ tried_reply t loads }
{
    let physical = t.physical;
    let after = t.registers;
    match physical {
        Some(address) => registers::answered(after, Outcome::At(address), loads),
        None => registers::answered(after, Outcome::Fault(t.value), loads),
    }
}

// After a miss whose walk found a leaf: loads it and tries again.
pub fn load_and_retry(leaf: Found, r: Registers, buffer: &mut [u64], a: Access) -> Reply
    requires { Accepted r (Buffer.Wide buffer.old) a }
    ensures { RetryGives leaf r (Buffer.Wide buffer.old) a result (Buffer.Wide buffer.new) }
{
    let vpn = entry::vpn_of(a.address);
    let e = store::leaf_entry(r.context, vpn, leaf);
    let slot = tlb::load(buffer, r.context, vpn, a.draw, e);
    let selected = registers::put(r, SELECT, slot);
    let second = access::translate(selected, buffer, a);
    tried_reply(second, 1)
}

// Tries; a miss is followed by a walk, which gives a leaf or the fault.
fn serve(r: Registers, buffer: &mut [u64], words: &[u32], a: Access) -> Reply
    requires { Accepted r (Buffer.Wide buffer.old) a × (ROOTS ≤ length words.now) }
    ensures { AccessGives
        (record { registers = r; buffer = Buffer.Wide buffer.old; words = words.now }) a result
        (Buffer.Wide buffer.new) }
{
    let first = access::translate(r, buffer, a);
    if first.value != MISS {
        return tried_reply(first, 0);
    }
    let vpn = entry::vpn_of(a.address);
    let found = page_table::walk_page(words, r.context, vpn);
    let after = first.registers;
    let Walk::Leaf(leaf) = found else {
        let value = page_table::walk_fault(found);
        return registers::answered(after, Outcome::Fault(value), 0);
    };
    load_and_retry(leaf, after, buffer, a)
}

// One served access. The outcome is the address or a fault; the loads are the entries that were loaded, 0 or 1.
pub fn served_access(
    r: Registers,
    buffer: &mut [u64],
    words: &[u32],
    address: u32,
    user: bool,
    write: bool,
    draw: u32,
) -> Reply
    ensures { ServedAccessGives
        (record { registers = r; buffer = Buffer.Wide buffer.old; words = words.now })
        (record { address = address; user = user; write = write; draw = draw }) result (Buffer.Wide buffer.new) }
{
    let a = Access {
        address,
        user,
        write,
        draw,
    };
    if let Err(refusal) = served_refusal(r, buffer, words, a) {
        return registers::refused(r, u32::from(refusal));
    }
    serve(r, buffer, words, a)
}
