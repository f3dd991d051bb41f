// The C call table store.
ghost use Rattle.std.specs.Prelude.{◌≡◌, ◌≤◌, ◌<◌, length};
ghost use Rattle.registers.specs.Numbers.{refusal_number};
ghost use Rattle.mmu_c.specs.Answers.{answer_of};
ghost use Rattle.mmu_c.specs.TableStore.{TableStoreGives, store_refusal};

use registers::Refusal;

fn store_refusal(registers: &[u8], buffer: &[u8], tables: &[u8], index: u32) -> Result<(), Refusal>
    ensures { refusal_number result ≡ store_refusal registers.now buffer.now tables.now index }
{
    registers::machine_refusal(
        crate::registers_taken(registers),
        crate::buffer_taken(buffer),
        crate::tables_taken(tables),
    )?;
    let index_fits = (index as usize) < tables.len() / 4;
    if !index_fits {
        return Err(Refusal::Index);
    }
    Ok(())
}

fn store_with(
    registers: &[u8],
    buffer: &mut [u8],
    tables: &mut [u8],
    slots: &mut [u64],
    index: u32,
    value: u32,
) -> Result<u64, Refusal>
    requires { length slots.old ≡ 64 }
    ensures { TableStoreGives registers.now buffer.old tables.old
        (record { index = index; value = value }) (answer_of result) buffer.new tables.new }
{
    store_refusal(registers, buffer, tables, index)?;
    wire::decode(buffer, slots);
    let emptied = table_bytes::rewrite(slots, tables, index, value);
    wire::encode(slots, buffer);
    Ok(emptied as u64)
}

// Writes one word of the page tables and judges every slot anew.
pub fn mmu_table_store(
    registers: &[u8],
    buffer: &mut [u8],
    tables: &mut [u8],
    index: u32,
    value: u32,
) -> u64
    ensures { TableStoreGives registers.now buffer.old tables.old
        (record { index = index; value = value }) result buffer.new tables.new }
{
    let mut slots = [0u64; 64];
    crate::answer_of(store_with(registers, buffer, tables, &mut slots, index, value))
}
