ghost use Rattle.std.specs.Prelude.{◌≡◌, ◌≢◌, ℕ, ◌+◌, ◌<◌, ◌++◌, length, List as Seq, IfOk, IsTrue, None};
ghost use Rattle.flow_base.specs.declared.points.Point.{Point as ThePoint};
ghost use Rattle.elf32_loader.specs.Images.{image_picture};
ghost use Rattle.cut_file.specs.Masks.{MaskAt};
ghost use Rattle.crossing_bits.specs.Askers.{feed};
ghost use Rattle.crossing_bits.specs.Strings.{left_of};
ghost use Rattle.rv32im_machine.specs.declared.stepping.Stepped.TheVariants.{Ran};
ghost use Rattle.rv32im_machine.specs.Start.{zeros};
ghost use Rattle.replay_machine.specs.ReplayTurns.{replay_walk};
ghost use Rattle.replay_machine.specs.ReplayTurns.{range_outside};
ghost use Rattle.replay_machine.specs.Runs.{ReplayPlace, Masks, replayed, replay_turn};
ghost use Rattle.replay_machine.specs.Starts.{replay_guest};
ghost use Rattle.replay_machine.specs.Visits.{IsAhead};
ghost use Rattle.replay_machine.specs.Private.Sides.{Side, Comes};
ghost use Rattle.region_machine.specs.Enclosures.{kind_of, Steps};
ghost use Rattle.region_machine.specs.Runs.{has_exited};
ghost use Rattle.replay_machine.specs.Standing.{Stands, Turned, end_answer, turn_answer, taken_after};
ghost use Rattle.replay_machine.specs.Standing.{mark_of};

use crate::cut_tables::CutTable;
use crate::lent_visits::LentVisits;
use crate::marks::Mark;
use crate::outsides::Outside;
use crate::playing::play;
use crate::replays::Replaying;
use crate::turns::ReplayTurn;
use crossing_bits::Bits;
use cut_file::Cut;
use elf32_loader::Image;
use enclosure_regions::{Regions, copy_regions};
use flow_base::{Bytes, List, NoMemory};
use region_machine::{MarkedRegions, OUTPUT_LIMIT};
use rv32im_machine::{GuestMemory, Machine, Stepped};
use std::alloc::Global;
use std::marker::Model;

/// A run of a program that never sees the secret: it starts on zeros, and the bits that cross are given to it.
#[derive(Drop)]
pub struct Replay<'c> {
    machine: Machine,
    side: Replaying<'c>,
    taken: u64,
    marked: MarkedRegions,
    skip: List<u16>,
    outside: Option<Outside>,
}

impl<'c> Model for Replay<'c> {
    ghost use Rattle.std.specs.Prelude.{◌≡◌, ◌<◌, ◌^◌, [], IsTrue};
    ghost use Rattle.replay_machine.specs.Standing.{Standing};
    ghost use Rattle.region_machine.specs.Within.{may_leave};

    ghost Value = { Standing };

    ghost view = { λ r. record {
      enclosures = record { regions = r.marked.regions.items; skip = r.skip };
      state = r.machine;
      outside = r.outside;
      ahead = r.side.masks;
      missing = r.side.missing;
      taken = r.taken;
    } };

    ghost invariant = { λ r. (r.taken < 2 ^ 64) × (r.side.bits.bits ≡ [])
        × (r.side.missing ≡ 0 → IsTrue (may_leave r.marked.regions.items r.machine)) };
}

/// So many zeros.
#[tactic(auto, unfolding(rv32im_machine::specs::Start::zeros))]
fn zeroed(alloc: Global, count: usize) -> Result<Bytes, NoMemory>
    ensures zeros { IfOk result (λ bytes. bytes ≡ zeros count) }
    ensures length { IfOk result (λ bytes. length bytes ≡ count) }
{
    let items = vec![in alloc; 0; count]?;
    Ok(Bytes::from_vec(items))
}

/// What a turn answers that wants no bit, by the range that ended it, if one did, and how the machine stands.
#[inline(always)]
fn end_of(outside: Option<Outside>, mode: Stepped) -> ReplayTurn
    ensures { result ≡ end_answer outside mode }
{
    match outside {
        Some(outside) => ReplayTurn::RangeOutside {
            region: outside.region,
            range: outside.range,
        },
        None => match mode {
            Stepped::Ran => ReplayTurn::Ran,
            Stepped::Exited(status) => ReplayTurn::Exited(status),
            Stepped::Stopped(why) => ReplayTurn::Stopped(why),
        },
    }
}

/// The same of any turn, after which so many bits are missing.
#[inline(always)]
fn answer(missing: u8, outside: Option<Outside>, mode: Stepped) -> ReplayTurn
    ensures { result ≡ turn_answer missing outside mode }
{
    match missing {
        0 => end_of(outside, mode),
        _ => ReplayTurn::Wants(missing),
    }
}

/// Whether a run has exited.
fn is_exit(mode: Stepped) -> bool
    ensures { result ≡ has_exited mode }
{
    match mode {
        Stepped::Ran => false,
        Stepped::Exited(_) => true,
        Stepped::Stopped(_) => false,
    }
}

impl<'c> Replay<'c> {
    /// The replay of a program on its public input, before its first turn. Of the secret it knows the length alone,
    /// which the cut names; it skips the regions that the cut names, each at its entry. Its masks are those of the table,
    /// whose points need not be the cut's. It keeps copies of all else that it needs. `NoMemory` where there is not
    /// enough; no later call takes memory.
    pub fn new(
        alloc: Global,
        image: &Image,
        public: &Bytes,
        regions: &Regions,
        cut: &Cut,
        table: &'c CutTable,
    ) -> Result<Replay<'c>, NoMemory>
        ensures stands { IfOk result (λ replay. Stands replay (MaskAt table.now)
            (replay_guest (image_picture image.now) public.now cut.now.secret_len)) }
        ensures enclosures { IfOk result (λ replay. replay.enclosures ≡
            (record { regions = regions.now.items; skip = cut.now.skip })) }
        ensures untaken { IfOk result (λ replay. replay.taken ≡ 0) }
    {
        let memory = GuestMemory::new(alloc)?;
        Replay::new_in(memory, alloc, image, public, regions, cut, table)
    }

    /// The same replay before its first turn, in guest memory that may have been another's: what was there is gone.
    /// `NoMemory` where there is not enough; the guest memory is then freed.
    pub fn new_in(
        memory: GuestMemory,
        alloc: Global,
        image: &Image,
        public: &Bytes,
        regions: &Regions,
        cut: &Cut,
        table: &'c CutTable,
    ) -> Result<Replay<'c>, NoMemory>
        ensures stands { IfOk result (λ replay. Stands replay (MaskAt table.now)
            (replay_guest (image_picture image.now) public.now cut.now.secret_len)) }
        ensures enclosures { IfOk result (λ replay. replay.enclosures ≡
            (record { regions = regions.now.items; skip = cut.now.skip })) }
        ensures untaken { IfOk result (λ replay. replay.taken ≡ 0) }
    {
        let masks = LentVisits::new(alloc, table)?;
        let zeros = zeroed(alloc, cut.secret_len as usize)?;
        let machine = Machine::new_in(memory, alloc, image, public, &zeros, OUTPUT_LIMIT)?;
        let bits = Bits::with_room(alloc, 0)?;
        let regions = copy_regions(alloc, regions)?;
        let marked = MarkedRegions::new(alloc, regions)?;
        let skip = List::from_slice(alloc, cut.skip.as_slice())?;
        let side = Replaying {
            masks,
            bits,
            missing: 0,
        };
        Ok(Replay {
            machine,
            side,
            taken: 0,
            marked,
            skip,
            outside: None,
        })
    }

    /// One turn on the bits that are left of a string: an instruction, the entry or the leave of a region, or its skip.
    /// `Wants` comes exactly where a mask of the turn needs so many bits more than are left; the turn then goes on to
    /// its end with the other values as they are, but no clause says where it ends. `RangeOutside` comes exactly where
    /// a region is entered or skipped one of whose ranges is not inside guest memory; nothing is then done. After an
    /// answer other than `Ran` each later call gives the same answer and changes nothing.
    #[inline(always)]
    pub fn turn(&mut self, bits: &mut Bits) -> ReplayTurn
        ensures turn { (masks : Masks) (place : ReplayPlace) → Stands self.old masks place →
            Turned masks (feed (replay_turn self.old.enclosures masks place) (left_of bits.old)) self.new bits.new
            result }
        ensures enclosures { self.new.enclosures ≡ self.old.enclosures }
        ensures answer { result ≡ turn_answer self.new.missing self.new.outside self.new.state.control.mode }
        ensures wants { self.old.missing ≢ 0 → (self.new ≡ self.old) × (bits.new ≡ bits.old) }
        ensures outside { self.old.outside ≢ None → (self.new ≡ self.old) × (bits.new ≡ bits.old) }
        ensures ended { self.old.state.control.mode ≢ Ran → (self.new ≡ self.old) × (bits.new ≡ bits.old) }
        ensures bits { bits.new.bits ≡ bits.old.bits }
        ensures room { bits.new.room ≡ bits.old.room }
        ensures taken { self.new.taken ≡ taken_after self.old.taken bits.old bits.new }
        ensures output { self.new.missing ≡ 0 →
            (more : Seq ℕ) × (self.new.state.control.output ≡ self.old.state.control.output ++ more) }
    {
        if self.side.missing != 0 {
            return ReplayTurn::Wants(self.side.missing);
        }
        match self.outside {
            Some(outside) => ReplayTurn::RangeOutside {
                region: outside.region,
                range: outside.range,
            },
            None => match self.machine.mode() {
                Stepped::Ran => self.run_turn(bits),
                Stepped::Exited(status) => ReplayTurn::Exited(status),
                Stepped::Stopped(fault) => ReplayTurn::Stopped(fault),
            },
        }
    }

    /// The turn of a replay that runs, that no range has ended and that wants nothing.
    #[inline(always)]
    fn run_turn(&mut self, bits: &mut Bits) -> ReplayTurn
        requires wants { self.old.missing ≡ 0 }
        requires outside { self.old.outside ≡ None }
        ensures outside { self.new.outside ≡ range_outside self.old.enclosures.regions self.old.state }
        ensures still { self.new.outside ≢ None → (self.new.state ≡ self.old.state) × (self.new.ahead ≡ self.old.ahead)
            × (self.new.missing ≡ self.old.missing) × (bits.new ≡ bits.old) }
        ensures turn { self.new.outside ≡ None → (masks : Masks) (past : Seq ThePoint) →
            IsAhead self.old.ahead masks past →
            Comes masks bits.old
            (feed (replayed masks past (replay_walk self.old.enclosures self.old.state)) (left_of bits.old))
            self.new.state (record { ahead = self.new.ahead; stream = bits.new; missing = self.new.missing }) }
        ensures enclosures { self.new.enclosures ≡ self.old.enclosures }
        ensures answer { result ≡ turn_answer self.new.missing self.new.outside self.new.state.control.mode }
        ensures taken { self.new.taken ≡ taken_after self.old.taken bits.old bits.new }
    {
        let before = bits.left();
        let skip = self.skip.as_slice();
        self.outside = play(&mut self.machine, &mut self.side, &self.marked, skip, bits);
        let used = before.saturating_sub(bits.left());
        self.taken = self.taken.saturating_add(u64::from(used));
        answer(self.side.missing, self.outside, self.machine.mode())
    }

    /// Where the replay stands; `bits` counts up to 2^64 - 1.
    #[inline(always)]
    pub fn mark(&self) -> Mark
        ensures { result ≡ mark_of self.now }
    {
        Mark {
            address: self.machine.pc(),
            bits: self.taken,
            output: self.machine.written(),
            exited: is_exit(self.machine.mode()),
        }
    }

    /// The bytes that the replay has written so far.
    pub fn output(&self) -> &[u8]
        ensures { result.now ≡ self.now.state.control.output }
    {
        self.machine.output()
    }

    /// Guest memory, handed out for another guest to begin in. It takes no memory.
    pub fn into_memory(self) -> GuestMemory
        ensures { result ≡ self.entry.state.store.memory }
    {
        let (_output, memory) = self.machine.into_parts();
        memory
    }

    /// What the last turn has answered, and each later one answers where it is not `Ran`; `Ran` before the first.
    pub fn answer(&self) -> ReplayTurn
        ensures { result ≡ turn_answer self.now.missing self.now.outside self.now.state.control.mode }
    {
        answer(self.side.missing, self.outside, self.machine.mode())
    }

    /// Whether one look tells that the turn that a machine makes next is a step outside of the regions of the program;
    /// else it may be any.
    #[inline(always)]
    pub fn is_outside(&self, machine: &Machine) -> bool
        ensures { IsTrue result → kind_of self.now.enclosures.regions machine.now.control ≡ Steps None }
    {
        self.marked.is_outside(machine)
    }

    /// The regions of the program, marked where each is entered.
    pub fn marked(&self) -> &MarkedRegions
        ensures { result.now.regions.items ≡ self.now.enclosures.regions }
    {
        &self.marked
    }

    /// The numbers of the regions that are skipped.
    pub fn skip(&self) -> &[u16]
        ensures { result.now ≡ self.now.enclosures.skip }
    {
        self.skip.as_slice()
    }
}
