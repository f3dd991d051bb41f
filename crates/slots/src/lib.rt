// The translation buffer, a lent run of 64 numbers: one slot read, one slot replaced, all slots made empty.
#![tactic(auto, unfolding(crate::specs::Buffer::buffer_fits, crate::specs::Buffer::slot_at, crate::specs::Buffer::with_slot))]

ghost use Rattle.std.specs.Prelude.{true, ◌≡◌, ◌<◌, ◌^◌, length, replicate};
ghost use Rattle.slots.specs.Buffer.{Buffer, buffer_fits, slot_at, with_slot};
ghost use Rattle.slots.specs.Start.{start_buffer};

// An entry has the 44 bits below this one.
const BIT_44: u64 = 1 << 44;

// The run is as long as the buffer has slots.
pub fn buffer_fits(buffer: &[u64]) -> bool
    ensures { result ≡ buffer_fits (Buffer.Wide buffer.now) }
{
    buffer.len() == 64
}

// The entry at a slot. Bits 44 and up are ignored.
pub fn slot_at(buffer: &[u64], slot: u32) -> u64
    requires { (buffer_fits (Buffer.Wide buffer.now) ≡ true) × (slot < 64) }
    ensures { result ≡ slot_at (Buffer.Wide buffer.now) slot }
{
    buffer[slot as usize] % BIT_44
}

// Stores an entry at a slot. Bits 44 and up become zero.
pub fn put_slot(buffer: &mut [u64], slot: u32, e: u64)
    requires { (buffer_fits (Buffer.Wide buffer.old) ≡ true) × (slot < 64) }
    ensures { Buffer.Wide buffer.new ≡ with_slot (Buffer.Wide buffer.old) slot e }
{
    buffer[slot as usize] = e % BIT_44;
}

// Makes every slot empty: a set's sixteen slots begin at 16 times the set number.
pub fn empty_slots(buffer: &mut [u64])
    requires { buffer_fits (Buffer.Wide buffer.old) ≡ true }
    ensures { Buffer.Wide buffer.new ≡ start_buffer (Buffer.Wide buffer.old) }
{
    for set in 0..4 {
        let from = 16 * set as usize;
        let e = entry::empty_entry(set);
        buffer[from..from + 16].fill(e);
    }
}
