ghost use Rattle.std.specs.Prelude.{◌≡◌, ◌<◌, ◌^◌, [], length, IfSome};
ghost use Rattle.lockstep_replay.specs.Judgements.{judgement_of};
ghost use Rattle.cut_file.specs.Pictures.{cut_picture};
ghost use Rattle.lockstep_replay.specs.Tasks.{task_of};
ghost use Rattle.lockstep_replay.specs.Verdicts.{First};
ghost use Rattle.elf32_loader.specs.Images.{image_picture};
ghost use Rattle.machine_rows.specs.Runs.{IsAccepted, IsJudgement, limits};

use cut_file::{Cut, read_cut};
use elf32_loader::{Image, load_image};
use enclosure_regions::Regions;
use flow_base::{Bytes, Files};
use lockstep_replay::{LentTask, Lockstep, Verdict};
use replay_machine::CutTable;
use std::alloc::Global;

/// Every bit of a secret may cross.
const BUDGET: u32 = 1_048_576;

const TURNS: u32 = 1_000_000;

const FILE_LIMIT: u32 = 1_048_576;

const LONGEST_INPUT: usize = 65_536;

/// A guest to be run: the name of its program file, the name of its cut, its secret and its public input.
#[derive(Clone, Copy)]
pub struct Run<'a> {
    pub program: &'a str,
    pub cut: &'a str,
    pub secret: &'a str,
    pub public_input: &'a str,
}

/// The input that a word stands for; a dash stands for the empty one.
fn input_of(word: &str) -> &str {
    if word == "-" { "" } else { word }
}

/// The run that a line names, four words with a space between them.
pub fn parse<'a>(line: &'a str) -> Option<Run<'a>> {
    let (program, rest) = line.split_once(' ')?;
    let (cut, rest) = rest.split_once(' ')?;
    let (secret, public_input) = rest.split_once(' ')?;
    Some(Run {
        program,
        cut,
        secret: input_of(secret),
        public_input: input_of(public_input),
    })
}

/// The bytes of an input, where it is short enough.
fn bytes_of(alloc: Global, text: &str) -> Option<Bytes>
    ensures same { IfSome result (λ bytes. bytes ≡ text.now) }
    ensures short { IfSome result (λ bytes. length bytes < 2 ^ 32) }
{
    let bytes = Bytes::from_slice(alloc, text.as_bytes()).ok()?;
    if bytes.len() > LONGEST_INPUT {
        return None;
    }
    Some(bytes)
}

/// The verdict on a secret.
fn judge(
    alloc: Global,
    image: &Image,
    public_input: &Bytes,
    secret: &Bytes,
    cut: &Cut,
) -> Option<Verdict>
    requires short { length secret.now < 2 ^ 32 }
    ensures { IfSome result (λ verdict. judgement_of verdict ≡ First
        (task_of (image_picture image.now) public_input.now [] (cut_picture cut.now)) limits secret.now) }
{
    let regions = Regions::none(alloc);
    let Ok(table) = CutTable::new(alloc, cut) else {
        return None;
    };
    let task = LentTask {
        image,
        public: public_input,
        regions: &regions,
        cut,
        table: &table,
        budget: BUDGET,
        turns: TURNS,
    };
    let Ok(lockstep) = Lockstep::new(alloc, &task, secret) else {
        return None;
    };
    Some(lockstep.run())
}

/// The verdict on a run, by the bytes of a program file and of a cut.
fn verdict(alloc: Global, program: &[u8], cut: &[u8], run: &Run) -> Option<Verdict>
    requires program { length program.now < 2 ^ 32 }
    requires cut { length cut.now < 2 ^ 32 }
    ensures { IfSome result (λ verdict. IsJudgement program.now cut.now run.now.public_input.now run.now.secret.now
        (judgement_of verdict)) }
{
    let Ok(image) = load_image(alloc, program) else {
        return None;
    };
    let Ok(cut) = read_cut(alloc, cut) else {
        return None;
    };
    let public_input = bytes_of(alloc, run.public_input)?;
    let secret = bytes_of(alloc, run.secret)?;
    judge(alloc, &image, &public_input, &secret, &cut)
}

/// The number of bytes that the guest writes and its exit status, where its run is accepted with its cut.
pub fn judged<F: Files>(alloc: Global, files: &mut F, run: &Run) -> Option<(usize, u8)>
    ensures { IfSome result (λ found. IsAccepted run.now.public_input.now run.now.secret.now found.0 found.1) }
{
    let program = files.load(alloc, run.program, FILE_LIMIT).ok()?;
    let cut = files.load(alloc, run.cut, FILE_LIMIT).ok()?;
    match verdict(alloc, program.as_slice(), cut.as_slice(), run)? {
        Verdict::Accepted { output, .. } => Some((output.bytes.len(), output.status)),
        Verdict::Rejected(_) => None,
    }
}
