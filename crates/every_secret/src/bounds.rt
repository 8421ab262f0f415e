ghost use Rattle.std.specs.Prelude.{◌≡◌, ◌<◌, ◌≤◌, ◌^◌, length, IfOk};
ghost use Rattle.cut_file.specs.Pictures.{cut_picture};
ghost use Rattle.elf32_loader.specs.Images.{image_picture};
ghost use Rattle.lockstep_replay.specs.Tasks.{task_of};
ghost use Rattle.replay_machine.specs.Visits.{SameAhead};
ghost use Rattle.rv32im_machine.specs.Start.{zeros, zeros as zeros_list};
ghost use Rattle.every_secret.specs.AnyPublic.{TellsOf, seen_input, seen_task};
ghost use Rattle.every_secret.specs.Bounds.{BoundOf, IsVerdict};
ghost use Rattle.every_secret.specs.Rules.{AnswerAs, AreSoundRules, Rules};
ghost use Rattle.every_secret.specs.Private.Searching.{IsDone, ShowsDone};
ghost use Rattle.every_secret.specs.Private.Spots.{Basis};
ghost use Rattle.every_secret.specs.Private.Tapes.{AreRulesOf, ruling_of};

use crate::public_inputs::PublicInput;
use crate::searching::{Search, Walks};
use crate::starting::begin;
use crate::stepping::{Step, make_step};
use crate::verdicts::{BoundVerdict, Bounded};
use crate::walking::Walking;
use acceptance_law::{tell_cut, tell_inputs};
use crossing_bits::Bits;
use cut_file::Cut;
use elf32_loader::Image;
use enclosure_regions::{Regions, copy_regions};
use flow_base::{Bytes, NoMemory};
use region_machine::MarkedRegions;
use replay_machine::CutTable;
use std::alloc::Global;
use transfer_rules::RuleBook;

/// So many zeros.
#[tactic(auto, unfolding(rv32im_machine::specs::Start::zeros))]
fn zeroed(alloc: Global, count: usize) -> Result<Bytes, NoMemory>
    ensures zeros { IfOk result (λ bytes. bytes ≡ zeros count) }
    ensures length { IfOk result (λ bytes. length bytes ≡ count) }
{
    let items = vec![in alloc; 0; count]?;
    Ok(Bytes::from_vec(items))
}

/// The string of a walk.
fn string_of(side: Walking<'_>) -> Bits
    ensures { result ≡ side.entry.bits }
{
    let Walking { bits, .. } = side;
    bits
}

/// All that was found, once no path is left. `NoMemory` where there is not enough.
fn bounded(alloc: Global, search: Search<'_>) -> Result<Bounded, NoMemory>
    requires { 0 < length search.opens.items }
    ensures { IfOk result (λ bounded. (basis : Basis) → IsDone basis search.entry → ShowsDone basis bounded) }
{
    let Search {
        opens,
        findings,
        ..
    } = search;
    let sum = opens[0].sum;
    Ok(Bounded {
        paths: sum.paths,
        stopped: sum.stopped,
        patterns: findings.patterns.into_list(alloc)?,
        first_stop: findings.first_stop,
    })
}

/// The tree is searched by at most so many walks, 1 or more. `NoMemory` where there is not enough.
fn search_tree(alloc: Global, walks: Walks<'_>, limit: u32) -> Result<BoundVerdict, NoMemory>
    requires zeros { length walks.zeros.now < 2 ^ 32 }
    requires limit { 1 ≤ limit }
    requires budget { walks.budget < 4294967295 }
    ensures { IfOk result (λ verdict. (rules : Rules) → AreRulesOf (ruling_of walks.entry.book.now.table walks.entry.known) rules →
        walks.entry.zeros.now ≡ zeros walks.entry.cut.now.secret_len →
        SameAhead walks.entry.table.now walks.entry.cut.now.points →
        IsVerdict rules (task_of (image_picture walks.entry.image.now) walks.entry.public.now
        walks.entry.marked.now.regions.items (cut_picture walks.entry.cut.now))
        (record { budget = walks.entry.budget; turns = walks.entry.turns }) limit verdict) }
{
    let (search, side) = begin(alloc, walks)?;
    let mut search = search;
    let mut side = side;
    let mut left = walks.turns;
    for made in 0..limit {
        match make_step(
            alloc,
            &mut search,
            &mut side,
            walks,
            left,
            made + 1 == limit,
        )? {
            Step::Goes(next) => left = next,
            Step::Done => {
                let bounded = bounded(alloc, search)?;
                return Ok(BoundVerdict::Bounded(bounded));
            }
            Step::Answered(why) => {
                let path = string_of(side);
                return Ok(BoundVerdict::Unclear { path, why });
            }
            Step::TooMany => {
                let path = string_of(side);
                return Ok(BoundVerdict::TooMany { path, limit });
            }
        }
    }
    unreachable!()
}

/// Tells that the answer for a task tells of all secrets, or of all pairs, by any sound rules.
fn tell_bound(
    alloc: Global,
    image: &Image,
    public: &Bytes,
    known: PublicInput,
    regions: &Regions,
    cut: &Cut,
    budget: u32,
    turns: u32,
)
    requires { budget < 4294967295 }
    ensures { (rules : Rules) → AreSoundRules rules → rules.public ≡ known →
        TellsOf known (task_of (image_picture image.now) public.now regions.now.items (cut_picture cut.now))
        (record { budget = budget; turns = turns }) (BoundOf rules
        (seen_task known (task_of (image_picture image.now) public.now regions.now.items (cut_picture cut.now)))
        (record { budget = budget; turns = turns })) }
{
    let _ = (known, budget, turns);
    let none = Bytes::new(alloc);
    tell_inputs(image, public, &none, regions);
    tell_cut(cut);
}

/// The public input that is walked: these zeros stand for bytes that are not known.
fn seen_bytes<'a>(known: PublicInput, public: &'a Bytes, zeros: &'a Bytes) -> &'a Bytes
    requires { zeros.now ≡ zeros_list (length public.now) }
    ensures { result.now ≡ seen_input known public.now }
{
    match known {
        PublicInput::Given => public,
        PublicInput::Any => zeros,
    }
}

/// All outputs that any secret of the cut's length can give, for one program with its regions and one public input, or
/// whatever the public input is, if it has as many bytes; by the mask rules of a book, within a budget of fewer than
/// 4,294,967,295 bits and a limit of turns: the replay of the cut is walked with masks along every string of bits that can
/// cross, from each state once, and at most so many walks are made, 1 or more. What is answered is what the definition
/// says of the tree of all paths, or that this tree has more paths than walks may be made. So it is for every book whose
/// rules are a function, as those of the books of tables 1, 2 and 3; of another book nothing is said. Where these rules
/// are sound, as those of these tables, and the answer is bounded, it tells of all secrets, and of all pairs of a public
/// input and a secret where the public input is not known: each whose run exits and breaks no region is accepted, and one
/// of the patterns stands for its output.
/// `NoMemory` where there is not enough.
pub fn bound(
    alloc: Global,
    image: &Image,
    public: &Bytes,
    known: PublicInput,
    regions: &Regions,
    cut: &Cut,
    book: &RuleBook,
    budget: u32,
    turns: u32,
    paths: u32,
) -> Result<BoundVerdict, NoMemory>
    requires budget { budget < 4294967295 }
    requires paths { 1 ≤ paths }
    ensures answer { IfOk result (λ verdict. (rules : Rules) → AnswerAs book.now.table rules → rules.public ≡ known →
        IsVerdict rules
        (seen_task known (task_of (image_picture image.now) public.now regions.now.items (cut_picture cut.now)))
        (record { budget = budget; turns = turns }) paths verdict) }
    ensures all { (rules : Rules) → AreSoundRules rules → rules.public ≡ known →
        TellsOf known (task_of (image_picture image.now) public.now regions.now.items (cut_picture cut.now))
        (record { budget = budget; turns = turns }) (BoundOf rules
        (seen_task known (task_of (image_picture image.now) public.now regions.now.items (cut_picture cut.now)))
        (record { budget = budget; turns = turns })) }
{
    tell_bound(alloc, image, public, known, regions, cut, budget, turns);
    let unknown = zeroed(alloc, public.len())?;
    let seen = seen_bytes(known, public, &unknown);
    let zeros = zeroed(alloc, cut.secret_len as usize)?;
    let marked = MarkedRegions::new(alloc, copy_regions(alloc, regions)?)?;
    let table = CutTable::new(alloc, cut)?;
    let walks = Walks {
        image,
        public: seen,
        zeros: &zeros,
        marked: &marked,
        cut,
        table: &table,
        book,
        known,
        budget,
        turns,
    };
    let verdict = search_tree(alloc, walks, paths)?;
    Ok(verdict)
}
