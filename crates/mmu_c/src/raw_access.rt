// The C call raw access.
ghost use Rattle.std.specs.Prelude.{◌≡◌, length};
ghost use Rattle.registers.specs.Numbers.{refusal_number};
ghost use Rattle.mmu_c.specs.Answers.{answer_of};
ghost use Rattle.mmu_c.specs.RawAccess.{RawAccessGives, long_refusal};

use registers::{Access, Refusal, Registers};

// The refusal once the registers are 44 bytes.
fn raw_refusal(r: Registers, buffer: &[u8], a: Access) -> Result<(), Refusal>
    ensures { refusal_number result ≡ long_refusal r buffer.now a }
{
    if !registers::registers_fit(r) {
        return Err(Refusal::Registers);
    }
    if !crate::buffer_taken(buffer) {
        return Err(Refusal::Buffer);
    }
    let draw_fits = a.draw <= 3;
    if !draw_fits {
        return Err(Refusal::Draw);
    }
    Ok(())
}

fn raw_with(
    registers: &mut [u8],
    buffer: &[u8],
    slots: &mut [u64],
    a: Access,
) -> Result<u64, Refusal>
    requires { length slots.old ≡ 64 }
    ensures { RawAccessGives registers.old buffer.now a (answer_of result) registers.new }
{
    let long = registers.len() == crate::REGISTER_BYTES;
    if !long {
        return Err(Refusal::Registers);
    }
    let r = crate::registers_of(registers);
    raw_refusal(r, buffer, a)?;
    let t = crate::first_try(r, buffer, slots, a);
    // Without an exception the registers are as they were.
    if !t.exception {
        return Ok(crate::translation_answer(t));
    }
    let after = t.registers;
    crate::put_registers(registers, after);
    Ok(crate::translation_answer(t))
}

// One raw access.
pub fn mmu_raw_access(
    registers: &mut [u8],
    buffer: &[u8],
    address: u32,
    user: bool,
    write: bool,
    draw: u32,
) -> u64
    ensures { RawAccessGives registers.old buffer.now
        (record { address = address; user = user; write = write; draw = draw }) result registers.new }
{
    let a = Access {
        address,
        user,
        write,
        draw,
    };
    let mut slots = [0u64; 64];
    crate::answer_of(raw_with(registers, buffer, &mut slots, a))
}
