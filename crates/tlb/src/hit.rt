// The hit test as the reference writes it: three conditions, in its order and under its names.
ghost use Rattle.std.specs.Prelude.{◌≡◌};
ghost use Rattle.entry.specs.Entry.{unpack};
ghost use Rattle.tlb.specs.Hit.{hit, id_matches_or_global, valid_or_inv_exc, vpn15_matches};

// The reference, section 4.2.2 and table 4-2:
//
//     hit = (valid | inv_excp) &
//           (cpu_vpn == tlb_vpn) &
//           ((context_pid == tlb_pid) | global)
//
//     valid        valid bit (21) in the TLB entry
//     inv_excp     invalid page exception enabling bit from R_MMU_CTRL
//     cpu_vpn      virtual page number from the CPU
//     tlb_vpn      virtual page number in the TLB entry
//     context_pid  page_id field in R_MMU_CONTEXT
//     tlb_pid      page_id field in the TLB entry
//     global       global bit (22) in the TLB entry
//
// inv_excp is the bit that table 4-3 calls inv_exc, bit 2 of CTRL. A load asks with it on, to find
// a page's entry whatever its valid bit.
// The entry is the number e. Its kernel, we and pfn are taken out only after a hit, by
// `page_mapped` in the crate `access`.
//
// Behind `ensures` stands what is proved of the answer. The `hit` in it is the definition in
// specs/Hit.antt.
pub(crate) fn hit(inv_excp: bool, vpn: u32, context_pid: u32, e: u64) -> bool
    ensures { result ≡ hit inv_excp context_pid vpn (unpack e) }
{
    valid_or_inv_excp(inv_excp, e)
        & cpu_vpn_equals_tlb_vpn(vpn, e)
        & context_pid_equals_tlb_pid_or_global(context_pid, e)
}

fn valid_or_inv_excp(inv_excp: bool, e: u64) -> bool
    ensures { result ≡ valid_or_inv_exc inv_excp (unpack e) }
{
    let valid = entry::is_valid(e);
    valid | inv_excp
}

// `vpn` is the CPU's whole page number. Its lower four bits are the location, by which the slot was
// found. An entry holds only the upper 15 bits of its own, so these are compared.
fn cpu_vpn_equals_tlb_vpn(vpn: u32, e: u64) -> bool
    ensures { result ≡ vpn15_matches vpn (unpack e) }
{
    let cpu_vpn = vpn / 16;
    let tlb_vpn = entry::vpn15_of(e);
    cpu_vpn == tlb_vpn
}

fn context_pid_equals_tlb_pid_or_global(context_pid: u32, e: u64) -> bool
    ensures { result ≡ id_matches_or_global context_pid (unpack e) }
{
    let tlb_pid = entry::page_id_of(e);
    let global = entry::is_global(e);
    (context_pid == tlb_pid) | global
}
