use crate::guests::Guest;
use command_line::{BoundSettings, CheckSettings, RunSettings, Telling};
use cut_file::Cut;
use elf32_loader::Image;
use flow_base::Bytes;
use flow_certificate::Certificate;

/// Secrets of a guest that are to be judged.
#[derive(Drop)]
pub struct CheckTask<'a> {
    /// The guest.
    pub guest: Guest<'a>,
    /// The cut.
    pub cut: Cut,
    /// The secrets.
    pub secrets: &'a [Bytes],
    /// The limits of bits and of turns, and by what they are judged.
    pub settings: CheckSettings,
}

/// All secrets of a guest, whose outputs are to be bounded.
#[derive(Drop)]
pub struct AllSecretsTask<'a> {
    /// The guest.
    pub guest: Guest<'a>,
    /// The cut.
    pub cut: Cut,
    /// The limits, the table of the mask rules, and what is wanted beside the bound.
    pub settings: BoundSettings,
}

/// A run of a guest that is to be told of.
#[derive(Drop)]
pub struct RunTask<'a> {
    /// The guest.
    pub guest: Guest<'a>,
    /// The secret.
    pub secret: &'a Bytes,
    /// The limit of turns, and the table of the mask rules by which it is measured.
    pub settings: RunSettings,
}

/// Runs of a guest that are to be measured together.
#[derive(Drop)]
pub struct ManyRunsTask<'a> {
    /// The guest.
    pub guest: Guest<'a>,
    /// The secrets.
    pub secrets: &'a [Bytes],
    /// The limit of turns of each run, and the table of the mask rules by which they are measured.
    pub settings: RunSettings,
}

/// What a command line and its files ask for.
#[derive(Drop)]
pub enum Task<'a> {
    /// To judge secrets.
    JudgeSecrets(CheckTask<'a>),
    /// To bound the outputs of all secrets.
    BoundAll(AllSecretsTask<'a>),
    /// To tell of a run.
    TellRun {
        /// What is told.
        telling: Telling,
        /// The run.
        run: RunTask<'a>,
    },
    /// To tell the one cut of several runs.
    MeasureAll {
        /// The version of its text.
        version: u32,
        /// The runs.
        runs: ManyRunsTask<'a>,
    },
    /// To write the program file of an image.
    WriteProgram(Image),
    /// To list a program.
    ListProgram(Image),
    /// To verify a certificate.
    VerifyCertificate(Certificate),
    /// To write a cut in version 2.
    MigrateCut(Cut),
    /// To try the tool by a number.
    TryNumber(u32),
}
