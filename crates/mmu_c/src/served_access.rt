// The C call served access.
ghost use Rattle.std.specs.Prelude.{true, ◌≡◌, ◌*◌, ◌≤◌, ◌<◌, length};
ghost use Rattle.entry.specs.Address.{vpn_of};
ghost use Rattle.registers.specs.Fields.{registers_fit};
ghost use Rattle.page_table.specs.Stretches.{ROOTS};
ghost use Rattle.registers.specs.Numbers.{refusal_number};
ghost use Rattle.registers.specs.Refusals.{machine_refusal};
ghost use Rattle.access.specs.Translation.{Accepted, translate};
ghost use Rattle.mmu.specs.ServedAccess.{service_refusal};
ghost use Rattle.table_bytes.specs.TableBytes.{words_of};
ghost use Rattle.mmu_c.specs.Answers.{answer_of};
ghost use Rattle.mmu_c.specs.Location.{Fetched, put_back};
ghost use Rattle.mmu_c.specs.Runs.{BUFFER_BYTES, buffer_of, buffer_taken, tables_taken};
ghost use Rattle.mmu_c.specs.ServedAccess.{AccessGivesBytes, ServedAccessGives};

use access::{MISS, Translation};
use page_table::Walk;
use registers::{Access, Outcome, Refusal, Registers, Reply};

// The refusal once the registers are 44 bytes.
fn served_refusal(r: Registers, buffer: &[u8], tables: &[u8], a: Access) -> Result<(), Refusal>
    ensures { refusal_number result ≡ machine_refusal (registers_fit r) (buffer_taken buffer.now) (tables_taken tables.now)
        (service_refusal r a.draw) }
{
    registers::machine_refusal(
        registers::registers_fit(r),
        crate::buffer_taken(buffer),
        crate::tables_taken(tables),
    )?;
    mmu::service_refusal(r, a.draw)
}

// Writes the slots of a page's location to the buffer's bytes.
fn put_back(slots: &[u64], buffer: &mut [u8], vpn: u32)
    requires { (length slots.now ≡ 64) × (length buffer.old ≡ BUFFER_BYTES) }
    ensures { buffer.new ≡ put_back slots.now vpn 4 buffer.old }
{
    for set in 0..4 {
        let slot = entry::slot_of(set, vpn) as usize;
        wire::write(buffer, slot, slots[slot]);
    }
}

// An access whose first try had an exception. A miss is followed by a walk, which gives a leaf or the fault; what is loaded is put back.
fn serve(
    r: Registers,
    first: Translation,
    buffer: &mut [u8],
    tables: &[u8],
    slots: &mut [u64],
    a: Access,
) -> Reply
    requires { Accepted r (buffer_of buffer.old) a × (length buffer.old ≡ BUFFER_BYTES) × (4 * ROOTS ≤ length tables.now)
        × (first ≡ translate r (buffer_of buffer.old) a) × Fetched buffer.old slots.old (vpn_of a.address) }
    ensures { AccessGivesBytes
        (record { registers = r; buffer = buffer_of buffer.old; words = words_of tables.now }) a result
        buffer.new }
{
    if first.value != MISS {
        return mmu::tried_reply(first, 0);
    }
    let vpn = entry::vpn_of(a.address);
    let found = table_bytes::walk_page(tables, r.context, vpn);
    let after = first.registers;
    let Walk::Leaf(leaf) = found else {
        let value = page_table::walk_fault(found);
        return registers::answered(after, Outcome::Fault(value), 0);
    };
    let reply = mmu::load_and_retry(leaf, after, slots, a);
    put_back(slots, buffer, vpn);
    reply
}

fn served_with(
    registers: &mut [u8],
    buffer: &mut [u8],
    tables: &[u8],
    slots: &mut [u64],
    a: Access,
) -> Result<u64, Refusal>
    requires { length slots.old ≡ 64 }
    ensures { ServedAccessGives registers.old buffer.old tables.now a (answer_of result)
        registers.new buffer.new }
{
    let long = registers.len() == crate::REGISTER_BYTES;
    if !long {
        return Err(Refusal::Registers);
    }
    let r = crate::registers_of(registers);
    served_refusal(r, buffer, tables, a)?;
    let first = crate::first_try(r, buffer, slots, a);
    // Without an exception the registers and the buffer are as they were.
    if !first.exception {
        return Ok(crate::translation_answer(first));
    }
    let reply = serve(r, first, buffer, tables, slots, a);
    let after = reply.registers;
    crate::put_registers(registers, after);
    Ok(crate::reply_answer(reply))
}

// One served access.
pub fn mmu_served_access(
    registers: &mut [u8],
    buffer: &mut [u8],
    tables: &[u8],
    address: u32,
    user: bool,
    write: bool,
    draw: u32,
) -> u64
    ensures { ServedAccessGives registers.old buffer.old tables.now
        (record { address = address; user = user; write = write; draw = draw }) result registers.new buffer.new }
{
    let a = Access {
        address,
        user,
        write,
        draw,
    };
    let mut slots = [0u64; 64];
    crate::answer_of(served_with(registers, buffer, tables, &mut slots, a))
}
