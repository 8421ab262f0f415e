ghost use Rattle.std.specs.Prelude.{◌≡◌, ◌≤◌};
ghost use Rattle.command_tasks.specs.FileLimits.{limit_of};

/// What a file is for, which says how many bytes it may have.
#[derive(Clone, Copy)]
pub enum FileKind {
    /// The ELF32 program file of a guest.
    Program,
    /// The public input of a guest.
    PublicInput,
    /// A cut.
    Cut,
    /// A region file.
    Regions,
    /// A secret input of a guest.
    Secret,
    /// An assembler source.
    Source,
    /// A certificate.
    Certificate,
}

impl FileKind {
    /// The most bytes that such a file may have. A limit is below 4,294,967,295, since a refusal names the limit plus 1
    /// as a number of 32 bits.
    pub fn limit(self) -> u32
        ensures limit { result ≡ limit_of self }
        ensures low { result ≤ 67108864 }
    {
        match self {
            FileKind::Program => 16_777_216,
            FileKind::PublicInput => 1_048_576,
            FileKind::Cut => 67_108_864,
            FileKind::Regions => 65_536,
            FileKind::Secret => 65_536,
            FileKind::Source => 1_048_576,
            FileKind::Certificate => 67_108_864,
        }
    }
}
