ghost use Rattle.std.specs.Prelude.{◌≡◌, ◌≢◌, ℕ, IfOk, false, slice_index_or, true, vec_len};
ghost use Rattle.region_machine.specs.AddressMarks.{has_mark, mark_place};

use flow_base::NoMemory;
use std::alloc::Global;
use std::marker::Model;

/// How many marks there are.
const MARKS: usize = 65_536;

/// Marks of addresses of instructions, so that one look tells that an address was not marked. Addresses that are 65,536
/// words apart share a mark. Contracts see it as the marks.
#[derive(Drop)]
pub struct AddressMarks {
    set: Vec<bool>,
}

impl Model for AddressMarks {
    ghost use Rattle.std.specs.Prelude.{◌≡◌, Bool, List as Seq, vec_len};

    ghost Value = { Seq Bool };

    ghost view = { λ m. m.set.items };

    ghost invariant = { λ m. vec_len m.set ≡ 65536 };
}

/// So many marks that are not set.
#[tactic(auto, using(crate::proofs::Marking::none_set))]
fn unset(alloc: Global, count: usize) -> Result<Vec<bool>, NoMemory>
    ensures none { IfOk result (λ set. (place : ℕ) → slice_index_or set.items place false ≡ false) }
    ensures count { IfOk result (λ set. vec_len set ≡ count) }
{
    let set = vec![in alloc; false; count]?;
    Ok(set)
}

impl AddressMarks {
    /// No address is marked. `NoMemory` where there is not enough; no later call takes memory.
    pub fn new(alloc: Global) -> Result<AddressMarks, NoMemory>
        ensures { IfOk result (λ marks. (address : ℕ) → has_mark marks address ≡ false) }
    {
        let set = unset(alloc, MARKS)?;
        Ok(AddressMarks { set })
    }

    /// Marks an address. What was marked stays so, and what does not share its mark stays as it was.
    pub fn mark(&mut self, address: u32)
        ensures marked { has_mark self.new address ≡ true }
        ensures kept { (other : ℕ) → has_mark self.old other ≡ true → has_mark self.new other ≡ true }
        ensures others { (other : ℕ) → mark_place other ≢ mark_place address →
            has_mark self.new other ≡ has_mark self.old other }
    {
        self.set[(address / 4) as usize % MARKS] = true;
    }

    /// Whether an address may have been marked: true for each that was.
    #[inline(always)]
    pub fn may_have(&self, address: u32) -> bool
        ensures { result ≡ has_mark self.now address }
    {
        self.set[(address / 4) as usize % MARKS]
    }

    /// The marks, lent.
    #[inline(always)]
    pub fn lend(&self) -> LentMarks<'_>
        ensures { result ≡ self.now }
    {
        LentMarks {
            set: self.set.as_slice(),
        }
    }
}

/// Marks of addresses that are lent: whoever keeps them looks at a mark without a step by way of their owner. Contracts
/// see them as the marks.
#[derive(Drop)]
pub struct LentMarks<'m> {
    set: &'m [bool],
}

impl<'m> Model for LentMarks<'m> {
    ghost use Rattle.std.specs.Prelude.{◌≡◌, Bool, List as Seq, length};

    ghost Value = { Seq Bool };

    ghost view = { λ m. m.set.now };

    ghost invariant = { λ m. length m.set.now ≡ 65536 };
}

impl LentMarks<'_> {
    /// Whether an address may have been marked: true for each that was.
    #[inline(always)]
    pub fn may_have(&self, address: u32) -> bool
        ensures { result ≡ has_mark self.now address }
    {
        self.set[(address / 4) as usize % MARKS]
    }
}
