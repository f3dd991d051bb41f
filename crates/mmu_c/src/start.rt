// The C call start.
ghost use Rattle.std.specs.Prelude.{◌≡◌, length};
ghost use Rattle.mmu_c.specs.Answers.{answer_of};
ghost use Rattle.mmu_c.specs.Start.{StartGives};

use registers::Refusal;

fn start_with(registers: &mut [u8], buffer: &mut [u8], slots: &mut [u64]) -> Result<u64, Refusal>
    requires { length slots.old ≡ 64 }
    ensures { StartGives registers.old buffer.old (answer_of result) registers.new buffer.new }
{
    let long = registers.len() == crate::REGISTER_BYTES;
    if !long {
        return Err(Refusal::Registers);
    }
    if !crate::buffer_taken(buffer) {
        return Err(Refusal::Buffer);
    }
    let reply = control::start(slots);
    let after = reply.registers;
    crate::put_registers(registers, after);
    wire::encode(slots, buffer);
    Ok(0)
}

// Makes all registers 0 and every slot empty.
pub fn mmu_start(registers: &mut [u8], buffer: &mut [u8]) -> u64
    ensures { StartGives registers.old buffer.old result registers.new buffer.new }
{
    let mut slots = [0u64; 64];
    crate::answer_of(start_with(registers, buffer, &mut slots))
}
