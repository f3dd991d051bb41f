// The search of a page's four slots by the hit test, and the load of an entry.
#![tactic(auto)]

mod hit;

ghost use Rattle.std.specs.Prelude.{true, ℕ, ◌≡◌, ◌<◌, ◌↔◌, None, unwrap_or};
ghost use Rattle.slots.specs.Buffer.{Buffer, buffer_fits};
ghost use Rattle.tlb.specs.Search.{Searched};
ghost use Rattle.tlb.specs.Load.{LoadGives};

use crate::hit::hit;

// How many of the four slots hit, and the lowest set that does.
#[derive(Clone, Copy)]
pub struct Hits {
    pub count: u32,
    pub lowest: Option<u32>,
}

// Looks at the page's slot in each set.
pub fn search(buffer: &[u64], inv_exc: bool, context: u32, vpn: u32) -> Hits
    requires { buffer_fits (Buffer.Wide buffer.now) ≡ true }
    ensures none { result.lowest ≡ None ↔ result.count ≡ 0 }
    ensures found { (otherwise : ℕ) → Searched (Buffer.Wide buffer.now) inv_exc context vpn otherwise result.count (unwrap_or result.lowest otherwise) }
{
    let mut count: u32 = 0;
    let mut lowest = None;
    for set in 0..4 {
        let slot = entry::slot_of(set, vpn);
        let e = slots::slot_at(buffer, slot);
        if hit(inv_exc, vpn, context, e) {
            count += 1;
            lowest = lowest.or(Some(set));
        }
    }
    Hits { count, lowest }
}

// Stores an entry for a page and answers the slot: the lowest of the page's four that is the page's already, whatever its valid bit,
// else the draw's. That is the hit search with inv_exc on.
pub fn load(buffer: &mut [u64], context: u32, vpn: u32, draw: u32, e: u64) -> u32
    requires { (buffer_fits (Buffer.Wide buffer.old) ≡ true) × (draw < 4) }
    ensures { LoadGives (Buffer.Wide buffer.old) (Buffer.Wide buffer.new) context vpn draw e result }
{
    let found = search(buffer, true, context, vpn);
    let home = found.lowest.unwrap_or(draw);
    let slot = entry::slot_of(home, vpn);
    slots::put_slot(buffer, slot, e);
    slot
}
