ghost use Rattle.std.specs.Prelude.{◌≡◌, ◌+◌, ◌^◌, ◌<◌, ◌≤◌, [], IfOk, None};
ghost use Rattle.cut_file.specs.Masks.{MaskAt};
ghost use Rattle.flow_base.specs.Guests.{memory_size};
ghost use Rattle.replay_machine.specs.Visits.{IsAhead};
ghost use Rattle.shadow_masks.specs.Writes.{default_map};
ghost use Rattle.tracked_run.specs.Labels.{map_of};

use crate::clearing::Clearing;
use flow_base::NoMemory;
use lockstep_replay::Tallying;
use replay_machine::CutTable;
use shadow_masks::Shadow;
use std::alloc::Global;
use tracked_run::Held;
use transfer_rules::RuleBook;

/// Masks in the place of others, of a guest whose memory begins at an address: no bit may differ.
fn no_masks(masks: Shadow, base: u32) -> Shadow
    requires { base + memory_size ≤ 2 ^ 32 }
    ensures masks { map_of result ≡ default_map }
    ensures base { result.base ≡ base }
{
    Shadow::new_in(masks, base)
}

/// The masks of a guest whose memory begins at an address, in the place of others, before its first turn: no bit may
/// differ, and none has crossed. `NoMemory` where there is not enough.
pub(crate) fn beginning<'b>(
    masks: Shadow,
    alloc: Global,
    base: u32,
    table: &'b CutTable,
    book: &'b RuleBook,
    budget: u32,
) -> Result<Clearing<'b>, NoMemory>
    requires memory { base + memory_size ≤ 2 ^ 32 }
    requires budget { budget < 4294967295 }
    ensures masks { IfOk result (λ side. map_of side.shadow ≡ default_map) }
    ensures base { IfOk result (λ side. side.shadow.base ≡ base) }
    ensures ahead { IfOk result (λ side. IsAhead side.tally.masks (MaskAt table.now) []) }
    ensures budget { IfOk result (λ side. side.tally.budget ≡ budget) }
    ensures bits { IfOk result (λ side. side.tally.bits.bits ≡ []) }
    ensures needed { IfOk result (λ side. side.tally.needed ≡ 0) }
    ensures table { IfOk result (λ side. side.book.now.table ≡ book.now.table) }
    ensures look { IfOk result (λ side. side.look ≡ None) }
    ensures left { IfOk result (λ side. side.left ≡ None) }
{
    let shadow = no_masks(masks, base);
    let tally = Tallying::new(alloc, table, budget)?;
    Ok(Clearing {
        shadow,
        tally,
        book,
        held: Held::none(),
        region: 0,
        skipped: false,
        look: None,
        left: None,
    })
}
