/// By what secrets are judged.
#[derive(Clone, Copy)]
pub enum Judging {
    /// By a second machine that never sees the secret.
    Replay,
    /// By the masks of the secret's own run, by the mask rules of a table: 1, 2 or 3.
    Masks(u32),
}
