ghost use Rattle.std.specs.Prelude.{◌≡◌, None, IsTrue};
ghost use Rattle.region_machine.specs.Within.{may_leave};

use crate::labelled_memory::LabelledMemory;
use crate::outcomes::{Spent, TrackedTurn, spent_after};
use crate::turns::make_turn;
use elf32_loader::Image;
use enclosure_regions::{Regions, copy_regions};
use flow_base::{Bytes, NoMemory};
use flow_graph::Events;
use region_machine::{MarkedRegions, OUTPUT_LIMIT};
use rv32im_machine::Machine;
use shadow_masks::Shadow;
use std::alloc::Global;
use transfer_rules::RuleBook;

/// A measured run: the real run of a guest with regions, with a label for each of its registers and bytes.
#[derive(Drop)]
pub struct Tracked<'a> {
    machine: Machine,
    shadow: Shadow,
    marked: MarkedRegions,
    book: &'a RuleBook,
    spent: Option<Spent>,
    ghost base: { spent ≡ None → shadow.base ≡ machine.setting.base },
    ghost leave: { spent ≡ None → IsTrue (may_leave marked.regions.items machine) },
}

impl<'a> Tracked<'a> {
    ghost use Rattle.std.specs.Prelude.{◌≡◌, ◌<◌, ◌^◌, [], length, None, Some, IfOk, IfSome};
    ghost use Rattle.elf32_loader.specs.Images.{image_picture};
    ghost use Rattle.region_machine.specs.Starts.{guest};
    ghost use Rattle.run_labels.specs.Runs.{LabelledRun, unlabelled};
    ghost use Rattle.tracked_run.specs.Outcomes.{answer_of, spent_by};
    ghost use Rattle.tracked_run.specs.Runs.{Stands, Turns};

    /// A measured run of a program with these regions, at its start on these inputs, by the mask rules of a book.
    /// Nothing depends on the secret yet.
    /// `NoMemory` where there is not enough.
    pub fn new(
        alloc: Global,
        image: &Image,
        public: &Bytes,
        secret: &Bytes,
        regions: &Regions,
        book: &'a RuleBook,
    ) -> Result<Tracked<'a>, NoMemory>
        requires { length secret.now < 2 ^ 32 }
        ensures stands { IfOk result (λ tracked. Stands tracked.machine tracked.shadow
            (unlabelled (guest (image_picture image.now) public.now secret.now))) }
        ensures regions { IfOk result (λ tracked. tracked.marked.regions.items ≡ regions.now.items) }
        ensures table { IfOk result (λ tracked. tracked.book.now.table ≡ book.now.table) }
        ensures unspent { IfOk result (λ tracked. tracked.spent ≡ None) }
    {
        let memory = LabelledMemory::new(alloc, image.base)?;
        Tracked::new_in(memory, alloc, image, public, secret, regions, book)
    }

    /// The same run at its start in the memory that another one has handed out, whatever its guest was: nothing of it is
    /// left, so the run is that of a fresh start. It takes the time of what that run has written in place of 16 MiB and
    /// their labels.
    /// `NoMemory` where there is not enough; the memory is then freed.
    pub fn new_in(
        memory: LabelledMemory,
        alloc: Global,
        image: &Image,
        public: &Bytes,
        secret: &Bytes,
        regions: &Regions,
        book: &'a RuleBook,
    ) -> Result<Tracked<'a>, NoMemory>
        requires { length secret.now < 2 ^ 32 }
        ensures stands { IfOk result (λ tracked. Stands tracked.machine tracked.shadow
            (unlabelled (guest (image_picture image.now) public.now secret.now))) }
        ensures regions { IfOk result (λ tracked. tracked.marked.regions.items ≡ regions.now.items) }
        ensures table { IfOk result (λ tracked. tracked.book.now.table ≡ book.now.table) }
        ensures unspent { IfOk result (λ tracked. tracked.spent ≡ None) }
    {
        let LabelledMemory { guest, labels } = memory;
        let machine = Machine::new_in(guest, alloc, image, public, secret, OUTPUT_LIMIT)?;
        let shadow = Shadow::new_in(labels, image.base);
        let marked = MarkedRegions::new(alloc, copy_regions(alloc, regions)?)?;
        Ok(Tracked {
            machine,
            shadow,
            marked,
            book,
            spent: None,
        })
    }

    /// One turn of the run, whose events are added: an instruction, or the entry or the leave of a region. A run that
    /// breaks a region, that is stopped, or that looks at code or at the base register of a range that may depend on the
    /// secret is refused; the turn is played to its end all the same. `NoMemory` if there is not enough for an event or
    /// for the label of a byte; a first part of the turn's events may then have been added. After every answer but `Ran`
    /// each later call gives the same answer, changes nothing and adds nothing.
    pub fn turn<E: Events>(&mut self, events: &mut E) -> Result<TrackedTurn, NoMemory>
        ensures turns { self.old.spent ≡ None → (run : LabelledRun) → Stands self.old.machine self.old.shadow run →
            Turns self.old.book.now.table self.old.marked.regions.items run (E.stands_for events.old)
            (E.stands_for events.new) self.new.machine self.new.shadow result }
        ensures spent { IfSome self.old.spent (λ spent.
            (result ≡ answer_of spent) × (self.new ≡ self.old) × (events.new ≡ events.old)) }
        ensures ends { self.new.spent ≡ spent_by result }
        ensures regions { self.new.marked.regions.items ≡ self.old.marked.regions.items }
        ensures book { self.new.book.now ≡ self.old.book.now }
    {
        match self.spent {
            Some(spent) => spent.answer(),
            None => self.next_turn(events),
        }
    }

    /// The turn of a run that is not spent.
    fn next_turn<E: Events>(&mut self, events: &mut E) -> Result<TrackedTurn, NoMemory>
        requires { self.old.spent ≡ None }
        ensures turns { (run : LabelledRun) → Stands self.old.machine self.old.shadow run →
            Turns self.old.book.now.table self.old.marked.regions.items run (E.stands_for events.old)
            (E.stands_for events.new) self.new.machine self.new.shadow result }
        ensures ends { self.new.spent ≡ spent_by result }
        ensures regions { self.new.marked.regions.items ≡ self.old.marked.regions.items }
        ensures book { self.new.book.now ≡ self.old.book.now }
    {
        let answer = make_turn(
            &mut self.machine,
            &mut self.shadow,
            events,
            &self.marked,
            self.book,
        );
        match answer {
            Ok(TrackedTurn::Ran) => {}
            _ => self.spent = spent_after(answer),
        }
        answer
    }

    /// The bytes that the guest has written so far.
    pub fn output(&self) -> &[u8]
        ensures { result.now ≡ self.now.machine.control.output }
    {
        self.machine.output()
    }

    /// The bytes that the guest has written and the memory of the run, handed out, the second for another run to begin in,
    /// whatever this one has come to. It takes no memory.
    pub fn into_parts(self) -> (Bytes, LabelledMemory)
        ensures output { result.0 ≡ self.entry.machine.control.output }
        ensures guest { result.1.guest ≡ self.entry.machine.store.memory }
        ensures labels { result.1.labels ≡ self.entry.shadow }
    {
        let Tracked {
            machine,
            shadow,
            ..
        } = self;
        let (output, guest) = machine.into_parts();
        let memory = LabelledMemory {
            guest,
            labels: shadow,
        };
        (output, memory)
    }
}
