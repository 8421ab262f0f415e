ghost use Rattle.acceptance_law.specs.SecretBits.{SecretBitsLaw};
ghost use Rattle.acceptance_law.specs.SecretSides.{LeastBitsLaw};

/// Whatever the mask rules answer, a run passes at most eight bits for each byte of its secret where it reads the secret.
/// It does nothing when it is called.
pub fn runs_read_their_secret()
    ensures bits { SecretBitsLaw }
{}

/// The least capacity of a side of a run's graph is no more than the bits that pass where the run reads its secret. It
/// does nothing when it is called.
pub fn least_sides_are_small()
    ensures least { LeastBitsLaw }
{}
