// One raw access, once it is accepted: linear segments, the buffer's answer, exceptions, cause and selected slot.
#![tactic(auto)]

ghost use Rattle.std.specs.Prelude.{◌≡◌, ◌<◌, ◌≤◌};
ghost use Rattle.runs.specs.Bits.{bit};
ghost use Rattle.entry.specs.Entry.{FRAMES};
ghost use Rattle.slots.specs.Buffer.{Buffer};
ghost use Rattle.access.specs.Segments.{in_linear_segment, linear_address, segment_base, segment_of};
ghost use Rattle.access.specs.Exceptions.{acc_exc, exception_value, inv_exc, we_exc};
ghost use Rattle.access.specs.Translation.{Accepted, exception_address, exception_answer, no_exception, on_hit, page_mapped, translate};
ghost use Rattle.access.specs.Translation.{with_cause};

use entry::Entry;
use registers::{Access, Registers};
use tlb::Hits;

// The exception value of a miss.
pub const MISS: u32 = 8;

// How many bytes a segment has: those of address bits 27 to 0.
const SEGMENT: u32 = 1 << 28;

// The four answers of a raw access (the physical address, if there is one), and the registers that it leaves.
#[derive(Clone, Copy)]
pub struct Translation {
    pub physical: Option<u32>,
    pub interrupt: bool,
    pub exception: bool,
    pub value: u32,
    pub registers: Registers,
}

// Address bits 31 to 28.
fn segment_of(address: u32) -> u32
    ensures { (result ≡ segment_of address) × (result < 16) }
{
    (address >> 28) % 16
}

// Supervisor mode, and the segment's bit in KSEG set.
fn in_linear_segment(kseg: u32, a: Access) -> bool
    ensures { result ≡ in_linear_segment kseg a }
{
    let segment = segment_of(a.address);
    !a.user & ((kseg >> segment) % 2 == 1)
}

// The four bits that replace a segment's number.
fn segment_base(lo: u32, hi: u32, segment: u32) -> u32
    requires { segment < 16 }
    ensures { (result ≡ segment_base lo hi segment) × (result < 16) }
{
    if segment < 8 {
        return (lo >> (4 * segment)) % 16;
    }
    (hi >> (4 * (segment - 8))) % 16
}

fn linear_address(lo: u32, hi: u32, address: u32) -> u32
    ensures { result ≡ linear_address lo hi address }
{
    let segment = segment_of(address);
    let base = segment_base(lo, hi, segment);
    base * SEGMENT + address % SEGMENT
}

// The three bits of CTRL stay functions of their own: one with a place is no plainer, since each is one line under the reference's name.

// CTRL's bit 2.
fn inv_exc(ctrl: u32) -> bool
    ensures { result ≡ inv_exc ctrl }
{
    (ctrl >> 2) % 2 == 1
}

// CTRL's bit 1.
fn acc_exc(ctrl: u32) -> bool
    ensures { result ≡ acc_exc ctrl }
{
    (ctrl >> 1) % 2 == 1
}

// CTRL's bit 0.
fn we_exc(ctrl: u32) -> bool
    ensures { result ≡ we_exc ctrl }
{
    ctrl % 2 == 1
}

// Write error 1, access violation 2, invalid page 4, added up.
fn exception_value(ctrl: u32, a: Access, f: Entry) -> u32
    ensures { (result ≡ exception_value ctrl a f.valid f.kernel f.we) × (result < 8) }
{
    let write_error = u32::from(a.write & !f.we & we_exc(ctrl));
    let access_violation = u32::from(a.user & f.kernel & acc_exc(ctrl));
    let invalid_page = u32::from(!f.valid & inv_exc(ctrl));
    write_error + 2 * access_violation + 4 * invalid_page
}

fn no_exception(r: Registers, address: u32) -> Translation
    ensures { result ≡ no_exception r address }
{
    Translation {
        physical: Some(address),
        interrupt: false,
        exception: false,
        value: 0,
        registers: r,
    }
}

// SELECT, the vpn and page_id that TLB_HI shares with the cause, the exception value and the write bit.
fn with_cause(r: Registers, a: Access, slot: u32, value: u32) -> Registers
    requires { (r.context < 64) × (value < 16) }
    ensures { result ≡ with_cause r a slot value }
{
    let vpn = entry::vpn_of(a.address);
    let mut q = r;
    q.select = slot;
    q.tlb_hi = vpn * 64 + r.context;
    q.cause = value * 2 + a.write as u32;
    q
}

// The address at an exception; `tested` is test mode's.
fn exception_address(r: Registers, a: Access, tested: Option<u32>) -> Option<u32>
    ensures { result ≡ exception_address r a tested }
{
    if r.enable == 0 {
        return Some(a.address);
    }
    if r.test == 0 {
        return None;
    }
    tested
}

// The arguments are those of the definition. A struct of them is no plainer: it would be made and taken apart at each call.
fn exception_answer(
    r: Registers,
    a: Access,
    slot: u32,
    value: u32,
    tested: Option<u32>,
) -> Translation
    requires { (r.context < 64) × (value < 16) }
    ensures { result ≡ exception_answer r a slot value tested }
{
    let physical = exception_address(r, a, tested);
    let registers = with_cause(r, a, slot, value);
    Translation {
        physical,
        interrupt: (r.enable != 0) & (r.test == 0),
        exception: true,
        value,
        registers,
    }
}

// Exactly one slot hit, and its entry has these fields.
fn on_hit(r: Registers, a: Access, slot: u32, f: Entry) -> Translation
    requires { (r.context < 64) × (f.pfn < FRAMES) }
    ensures { result ≡ on_hit r a slot f }
{
    let value = exception_value(r.ctrl, a, f);
    let address = f.pfn * entry::PAGE + a.address % entry::PAGE;
    if value != 0 {
        return exception_answer(r, a, slot, value, Some(address));
    }
    if r.enable == 0 {
        return no_exception(r, a.address);
    }
    no_exception(r, address)
}

// The buffer decides: a miss, one hit, or multiple hits, which are a bus fault.
fn page_mapped(r: Registers, buffer: &[u64], a: Access) -> Translation
    requires { Accepted r (Buffer.Wide buffer.now) a }
    ensures { result ≡ page_mapped r (Buffer.Wide buffer.now) a }
{
    let vpn = entry::vpn_of(a.address);
    let Hits { count, lowest } = tlb::search(buffer, inv_exc(r.ctrl), r.context, vpn);
    match lowest {
        None => {
            let drawn = entry::slot_of(a.draw, vpn);
            exception_answer(r, a, drawn, MISS, None)
        }
        Some(set) if count == 1 => {
            let slot = entry::slot_of(set, vpn);
            let e = slots::slot_at(buffer, slot);
            let f = entry::unpack(e);
            on_hit(r, a, slot, f)
        }
        Some(_) => exception_answer(r, a, r.select, 0, None),
    }
}

// The raw access in document 01's three steps.
pub fn translate(r: Registers, buffer: &[u64], a: Access) -> Translation
    requires { Accepted r (Buffer.Wide buffer.now) a }
    ensures { result ≡ translate r (Buffer.Wide buffer.now) a }
{
    if in_linear_segment(r.kseg, a) {
        if r.enable == 0 {
            return no_exception(r, a.address);
        }
        let address = linear_address(r.kbase_lo, r.kbase_hi, a.address);
        return no_exception(r, address);
    }
    if (r.enable == 0) & (r.test == 0) {
        return no_exception(r, a.address);
    }
    page_mapped(r, buffer, a)
}
