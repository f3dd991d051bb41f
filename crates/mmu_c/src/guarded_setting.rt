// The C call guarded setting.
ghost use Rattle.mmu_c.specs.GuardedSetting.{GuardedSettingGives};

use registers::Refusal;

// Sets a guarded register.
pub fn mmu_guarded_setting(registers: &mut [u8], number: u32, value: u32) -> u64
    ensures { GuardedSettingGives registers.old number value result registers.new }
{
    let long = registers.len() == crate::REGISTER_BYTES;
    if !long {
        return crate::answer_of(Err(Refusal::Registers));
    }
    let r = crate::registers_of(registers);
    let reply = control::guarded_setting(r, number, value);
    let answer = crate::reply_answer(reply);
    // A setting that is accepted answers 0. The test is of the call's 64-bit answer, which C gets as it is.
    let accepted = answer == 0;
    if !accepted {
        return answer;
    }
    wire::write(registers, number as usize, value);
    answer
}
