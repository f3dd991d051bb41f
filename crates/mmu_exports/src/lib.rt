// The calls of `mmu_c` under their C names, for a static library. Each answers and writes what the call of that name in `mmu_c` does, and
// promises the same. A run of bytes comes as a pointer and then its length.
#![tactic(auto)]

ghost use Rattle.mmu_c.specs.GuardedSetting.{GuardedSettingGives};
ghost use Rattle.mmu_c.specs.RawAccess.{RawAccessGives};
ghost use Rattle.mmu_c.specs.ServedAccess.{ServedAccessGives};
ghost use Rattle.mmu_c.specs.Start.{StartGives};
ghost use Rattle.mmu_c.specs.TableStore.{TableStoreGives};

use mmu_c::{guarded_setting, raw_access, served_access, start, table_store};

// Makes all registers 0 and every slot empty.
#[unsafe(no_mangle)]
pub extern "C" fn mmu_start(registers: &mut [u8], buffer: &mut [u8]) -> u64
    ensures { StartGives registers.old buffer.old result registers.new buffer.new }
{
    start::mmu_start(registers, buffer)
}

// Sets a guarded register.
#[unsafe(no_mangle)]
pub extern "C" fn mmu_guarded_setting(registers: &mut [u8], number: u32, value: u32) -> u64
    ensures { GuardedSettingGives registers.old number value result registers.new }
{
    guarded_setting::mmu_guarded_setting(registers, number, value)
}

// One raw access.
#[unsafe(no_mangle)]
pub extern "C" fn mmu_raw_access(
    registers: &mut [u8],
    buffer: &[u8],
    address: u32,
    user: bool,
    write: bool,
    draw: u32,
) -> u64
    ensures { RawAccessGives registers.old buffer.now
        (record { address = address; user = user; write = write; draw = draw }) result registers.new }
{
    raw_access::mmu_raw_access(registers, buffer, address, user, write, draw)
}

// One served access.
#[unsafe(no_mangle)]
pub extern "C" fn mmu_served_access(
    registers: &mut [u8],
    buffer: &mut [u8],
    tables: &[u8],
    address: u32,
    user: bool,
    write: bool,
    draw: u32,
) -> u64
    ensures { ServedAccessGives registers.old buffer.old tables.now
        (record { address = address; user = user; write = write; draw = draw }) result registers.new buffer.new }
{
    served_access::mmu_served_access(registers, buffer, tables, address, user, write, draw)
}

// Writes one word of the page tables and judges every slot anew.
#[unsafe(no_mangle)]
pub extern "C" fn mmu_table_store(
    registers: &[u8],
    buffer: &mut [u8],
    tables: &mut [u8],
    index: u32,
    value: u32,
) -> u64
    ensures { TableStoreGives registers.now buffer.old tables.old
        (record { index = index; value = value }) result buffer.new tables.new }
{
    table_store::mmu_table_store(registers, buffer, tables, index, value)
}
