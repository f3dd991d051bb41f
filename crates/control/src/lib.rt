// Start, register writes, register reads and guarded settings.
#![tactic(auto)]

ghost use Rattle.std.specs.Prelude.{true, ◌≡◌};
ghost use Rattle.registers.specs.Fields.{fits_at, registers_fit};
ghost use Rattle.registers.specs.Numbers.{refusal_number};
ghost use Rattle.slots.specs.Buffer.{Buffer, buffer_fits};
ghost use Rattle.control.specs.Starting.{StartGives, start_refusal};
ghost use Rattle.control.specs.Numbers.{is_register, number_refusal};
ghost use Rattle.control.specs.Halves.{hi_of, lo_of};
ghost use Rattle.control.specs.Writing.{WriteGives, write_refusal, written_buffer};
ghost use Rattle.control.specs.Reading.{ReadGives, read_refusal, read_value};
ghost use Rattle.control.specs.Setting.{GuardedSettingGives, is_guarded, setting_refusal, switch_fits};

use registers::{Refusal, Registers, Reply};

// Register numbers. They are no enum: a caller may give any number (`is_register`), and the theorems on reads and writes go over all of them.
const CONTEXT: u32 = 5;

const TLB_HI: u32 = 7;

const TLB_LO: u32 = 8;

// The lowest bit of an entry above those of TLB_LO, as a number.
const ABOVE_LO: u64 = 1 << 23;

// Makes every slot empty and all registers 0. A refused start returns registers that are all 0 and alters nothing.
pub fn start(buffer: &mut [u64]) -> Reply
    ensures { StartGives (Buffer.Wide buffer.old) (Buffer.Wide buffer.new) result }
{
    let r = registers::zero_registers();
    if !slots::buffer_fits(buffer) {
        return registers::refused(r, u32::from(Refusal::Buffer));
    }
    slots::empty_slots(buffer);
    registers::done(r, 0)
}

// Numbers 0 to 9 are registers.
fn is_register(number: u32) -> bool
    ensures { result ≡ is_register number }
{
    number < 10
}

// What a read and a write are refused for in common: registers, buffer, number.
fn number_refusal(r: Registers, buffer: &[u64], number: u32) -> Result<(), Refusal>
    ensures { refusal_number result ≡ number_refusal r (Buffer.Wide buffer.now) number 0 }
{
    if !registers::registers_fit(r) {
        return Err(Refusal::Registers);
    }
    if !slots::buffer_fits(buffer) {
        return Err(Refusal::Buffer);
    }
    if !is_register(number) {
        return Err(Refusal::Setting);
    }
    Ok(())
}

// A write is also refused for a value too large.
fn write_refusal(r: Registers, buffer: &[u64], number: u32, value: u32) -> Result<(), Refusal>
    ensures { refusal_number result ≡ write_refusal r (Buffer.Wide buffer.now) number value }
{
    number_refusal(r, buffer, number)?;
    if !registers::fits_at(number, value) {
        return Err(Refusal::Setting);
    }
    Ok(())
}

// A write to TLB_LO stores the entry at SELECT; no other write touches the buffer.
fn write_buffer(r: Registers, buffer: &mut [u64], number: u32, value: u32)
    requires { (registers_fit r ≡ true) × (buffer_fits (Buffer.Wide buffer.old) ≡ true) × (fits_at number value ≡ true) }
    ensures { Buffer.Wide buffer.new ≡ written_buffer r (Buffer.Wide buffer.old) number value }
{
    if number == TLB_LO {
        let hi = r.tlb_hi;
        let e = entry::join((hi >> 10) % entry::VPN15S, hi % 64, value);
        slots::put_slot(buffer, r.select, e);
    }
}

// Writes a register.
pub fn write_register(r: Registers, buffer: &mut [u64], number: u32, value: u32) -> Reply
    ensures { WriteGives r (Buffer.Wide buffer.old) (Buffer.Wide buffer.new) number value result }
{
    if let Err(refusal) = write_refusal(r, buffer, number, value) {
        return registers::refused(r, u32::from(refusal));
    }
    write_buffer(r, buffer, number, value);
    let after = registers::put(r, number, value);
    registers::done(after, 0)
}

// TLB_HI of the entry at SELECT: its vpn, of which SELECT gives the location, and its page_id.
fn hi_at_select(r: Registers, e: u64) -> u32
    ensures { result ≡ hi_of r.select e }
{
    let vpn15 = entry::vpn15_of(e);
    let page_id = entry::page_id_of(e);
    (16 * vpn15 + r.select % 16) * 64 + page_id
}

// TLB_LO of an entry: its bits 22 to 0.
fn lo_of(e: u64) -> u32
    ensures { result ≡ lo_of e }
{
    (e % ABOVE_LO) as u32
}

// TLB_HI and TLB_LO read as the entry at SELECT, every other number as its own field.
fn read_value(r: Registers, buffer: &[u64], number: u32) -> u32
    requires { read_refusal r (Buffer.Wide buffer.now) number ≡ 0 }
    ensures { result ≡ read_value r (Buffer.Wide buffer.now) number }
{
    let e = slots::slot_at(buffer, r.select);
    match number {
        TLB_HI => hi_at_select(r, e),
        TLB_LO => lo_of(e),
        _ => registers::field(r, number),
    }
}

// Reads a register: the outcome is Done with its value. Registers and buffer stay.
pub fn read_register(r: Registers, buffer: &[u64], number: u32) -> Reply
    ensures { ReadGives r (Buffer.Wide buffer.now) number result }
{
    if let Err(refusal) = number_refusal(r, buffer, number) {
        return registers::refused(r, u32::from(refusal));
    }
    let value = read_value(r, buffer, number);
    registers::done(r, value)
}

// Numbers 0 to 5, KSEG to CONTEXT, are guarded settings.
fn is_guarded(number: u32) -> bool
    ensures { result ≡ is_guarded number }
{
    number <= CONTEXT
}

// A setting of CONTEXT is a switch, to an identification of 62 at most.
fn switch_fits(number: u32, value: u32) -> bool
    ensures { result ≡ switch_fits number value }
{
    (number != CONTEXT) | (value <= 62)
}

fn setting_refusal(r: Registers, number: u32, value: u32) -> Result<(), Refusal>
    ensures { refusal_number result ≡ setting_refusal r number value }
{
    if !registers::registers_fit(r) {
        return Err(Refusal::Registers);
    }
    if !switch_fits(number, value) {
        return Err(Refusal::Service);
    }
    if !is_guarded(number) {
        return Err(Refusal::Setting);
    }
    if !registers::fits_at(number, value) {
        return Err(Refusal::Setting);
    }
    Ok(())
}

// Sets a guarded register.
pub fn guarded_setting(r: Registers, number: u32, value: u32) -> Reply
    ensures { GuardedSettingGives r number value result }
{
    if let Err(refusal) = setting_refusal(r, number, value) {
        return registers::refused(r, u32::from(refusal));
    }
    let changed = registers::put(r, number, value);
    registers::done(changed, 0)
}
