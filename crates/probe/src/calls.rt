// The calls that requests name.
ghost use Rattle.std.specs.Prelude.{◌≤◌, length};
ghost use Rattle.probe.specs.Lengths.{WORDS};

use crate::Request;
use crate::answers::{self, Answer, answered};
use crate::kinds::{PoolCall, UnitCall};
use heap::Pool;

// How many roots the table words begin with, one for each identification.
const ROOTS: usize = 64;

// A walk of the table words, which asks for what a walk requires.
fn walk(q: Request, tables: &[u32]) -> Answer {
    let (id, vpn) = (q.first, q.second);
    if ROOTS <= id as usize || entry::PAGES <= vpn || tables.len() < ROOTS {
        return answered(3, 0, 0, 0, q.registers);
    }
    answers::walk_answer(page_table::walk_page(tables, id, vpn), q.registers)
}

// Makes a call of the unit; a look at the table words makes none, and answers how many there are.
pub(crate) fn unit_call(
    q: Request,
    call: UnitCall,
    buffer: &mut [u64],
    tables: &mut [u32],
) -> Answer
    requires { length tables.old ≤ WORDS }
{
    let r = q.registers;
    let (user, write) = (q.second != 0, q.third != 0);
    match call {
        UnitCall::Start => control::start(buffer).into(),
        UnitCall::RawAccess => {
            answers::raw_answer(mmu::raw_access(r, buffer, q.first, user, write, q.fourth))
        }
        UnitCall::RegisterWrite => control::write_register(r, buffer, q.first, q.second).into(),
        UnitCall::RegisterRead => answers::read_answer(control::read_register(r, buffer, q.first)),
        UnitCall::Walk => walk(q, tables),
        UnitCall::ServedAccess => {
            mmu::served_access(r, buffer, tables, q.first, user, write, q.fourth).into()
        }
        UnitCall::TableStore => store::table_store(r, buffer, tables, q.first, q.second).into(),
        UnitCall::GuardedSetting => control::guarded_setting(r, q.first, q.second).into(),
        UnitCall::TableWords => answered(tables.len() as u32, 0, 0, 0, r),
    }
}

// Makes a call on a pool; answers it, and the pool after it.
pub(crate) fn pool_call(
    q: Request,
    call: PoolCall,
    pool: Pool,
    buffer: &mut [u64],
    tables: &mut [u32],
) -> (Answer, Pool) {
    let r = q.registers;
    match call {
        PoolCall::NewPool => answers::pool_answer(heap::new_pool(q.first, q.second), r),
        PoolCall::Take => answers::pool_answer(heap::take(pool), r),
        PoolCall::Give => answers::pool_answer(heap::give(pool, q.first), r),
        PoolCall::Held => answers::held_answer(heap::held(pool), pool, r),
        PoolCall::Map => {
            answers::map_answer(heap::map(r, buffer, tables, pool, q.first, q.second))
        }
        PoolCall::Collect => {
            answers::collect_answer(collector::collect(r, buffer, tables, pool, q.first))
        }
    }
}
