ghost use Rattle.std.specs.Prelude.{◌≡◌};
ghost use Rattle.command_tasks.specs.Refusals.{refusal_status};

use crate::names::Name;
use crate::statuses::Status;
use cut_file::CutFault;
use elf32_loader::ElfFault;
use enclosure_regions::RegionFault;
use flow_base::NoMemory;
use flow_certificate::FormFault;
use many_runs::ManyFault;
use region_learn::LearnFault;
use run_labels::MeasureFault;
use rv32im_asm::AsmFault;
use std::fmt;

/// Why a command line is refused.
#[derive(Drop)]
pub enum Refusal {
    /// The words are no command line.
    Usage,
    /// The program file gives no image.
    Program(ElfFault),
    /// The region file gives no regions.
    Regions(RegionFault),
    /// The cut file gives no cut.
    Cut(CutFault),
    /// The source gives no program.
    Source(AsmFault),
    /// The certificate file gives no certificate.
    Certificate(FormFault),
    /// The run is not measured.
    Run(MeasureFault),
    /// The runs are not measured together.
    Runs(ManyFault),
    /// No declaration of regions is learnt of the run.
    Learn(LearnFault),
    /// The load of this name failed.
    Load {
        /// The name.
        name: Name,
    },
    /// This name has more bytes than its file may have.
    TooLarge {
        /// The name.
        name: Name,
        /// The number of bytes that the file may have, plus 1.
        number: u32,
    },
    /// There was not enough memory; then nothing is told.
    Memory,
}

impl Refusal {
    /// The status of the refusal.
    pub fn status(&self) -> Status
        ensures { result ≡ refusal_status self.now }
    {
        match self {
            Refusal::Usage => Status::Usage,
            Refusal::Program(_)
            | Refusal::Regions(_)
            | Refusal::Cut(_)
            | Refusal::Source(_)
            | Refusal::Certificate(_) => Status::Malformed,
            Refusal::Run(_) | Refusal::Runs(_) | Refusal::Learn(_) => Status::RunRefused,
            Refusal::Load { .. } => Status::LoadFailed,
            Refusal::TooLarge { .. } => Status::TooLarge,
            Refusal::Memory => Status::NoMemory,
        }
    }
}

impl fmt::Display for Refusal {
    ghost use Rattle.std.specs.Prelude.{Some};
    ghost use Rattle.command_tasks.specs.Refusals.{refusal_text};

    ghost output = { λ refusal. Some (refusal_text refusal) };

    fn fmt<W: fmt::Write>(&self, f: &mut fmt::Formatter<W>) -> fmt::Result {
        match self {
            Refusal::Usage => write!(f, "refused 2 usage"),
            Refusal::Program(fault) => write!(f, "refused 3 program {fault}"),
            Refusal::Regions(fault) => write!(f, "refused 3 regions {fault}"),
            Refusal::Cut(fault) => write!(f, "refused 3 cut {fault}"),
            Refusal::Source(fault) => write!(f, "refused 3 source {fault}"),
            Refusal::Certificate(fault) => write!(f, "refused 3 certificate {fault}"),
            Refusal::Run(fault) => write!(f, "refused 4 {fault}"),
            Refusal::Runs(fault) => write!(f, "refused 4 {fault}"),
            Refusal::Learn(fault) => write!(f, "refused 4 {fault}"),
            Refusal::Load { name } => write!(f, "refused 5 load {name}"),
            Refusal::TooLarge { name, number } => {
                write!(f, "refused 6 too-large {name} {number}")
            }
            Refusal::Memory => write!(f, "memory"),
        }
    }
}

impl From<NoMemory> for Refusal {
    ghost use Rattle.std.specs.Prelude.{◌≡◌};
    ghost use Rattle.command_tasks.specs.declared.refusals.Refusal.TheVariants.{Memory};
    ghost use Rattle.flow_base.specs.declared.lists.NoMemory.{NoMemory as TheNoMemory};

    ghost from_gives = { λ _ refusal. refusal ≡ Memory };

    fn from(_: NoMemory) -> Refusal {
        Refusal::Memory
    }
}

impl From<ElfFault> for Refusal {
    ghost use Rattle.command_tasks.specs.Refusals.{RefusesProgram};

    ghost from_gives = { RefusesProgram };

    fn from(fault: ElfFault) -> Refusal {
        match fault {
            ElfFault::Memory => Refusal::Memory,
            fault => Refusal::Program(fault),
        }
    }
}

impl From<RegionFault> for Refusal {
    ghost use Rattle.command_tasks.specs.Refusals.{RefusesRegions};

    ghost from_gives = { RefusesRegions };

    fn from(fault: RegionFault) -> Refusal {
        match fault {
            RegionFault::Memory => Refusal::Memory,
            fault => Refusal::Regions(fault),
        }
    }
}

impl From<CutFault> for Refusal {
    ghost use Rattle.command_tasks.specs.Refusals.{RefusesCut};

    ghost from_gives = { RefusesCut };

    fn from(fault: CutFault) -> Refusal {
        match fault {
            CutFault::Memory => Refusal::Memory,
            fault => Refusal::Cut(fault),
        }
    }
}

impl From<AsmFault> for Refusal {
    ghost use Rattle.command_tasks.specs.Refusals.{RefusesSource};

    ghost from_gives = { RefusesSource };

    fn from(fault: AsmFault) -> Refusal {
        match fault {
            AsmFault::Memory => Refusal::Memory,
            fault => Refusal::Source(fault),
        }
    }
}

impl From<FormFault> for Refusal {
    ghost use Rattle.command_tasks.specs.Refusals.{RefusesCertificate};

    ghost from_gives = { RefusesCertificate };

    fn from(fault: FormFault) -> Refusal {
        match fault {
            FormFault::Memory => Refusal::Memory,
            fault => Refusal::Certificate(fault),
        }
    }
}

impl From<MeasureFault> for Refusal {
    ghost use Rattle.command_tasks.specs.Refusals.{RefusesRun};

    ghost from_gives = { RefusesRun };

    fn from(fault: MeasureFault) -> Refusal {
        match fault {
            MeasureFault::Memory => Refusal::Memory,
            fault => Refusal::Run(fault),
        }
    }
}

impl From<ManyFault> for Refusal {
    ghost use Rattle.command_tasks.specs.Refusals.{RefusesRuns};

    ghost from_gives = { RefusesRuns };

    fn from(fault: ManyFault) -> Refusal {
        match fault {
            ManyFault::Memory => Refusal::Memory,
            fault => Refusal::Runs(fault),
        }
    }
}

impl From<LearnFault> for Refusal {
    ghost use Rattle.command_tasks.specs.Refusals.{RefusesLearning};

    ghost from_gives = { RefusesLearning };

    fn from(fault: LearnFault) -> Refusal {
        match fault {
            LearnFault::Memory => Refusal::Memory,
            fault => Refusal::Learn(fault),
        }
    }
}
