/// How many bytes a run may write at most: 1 MiB.
pub const OUTPUT_LIMIT: u32 = 1_048_576;
