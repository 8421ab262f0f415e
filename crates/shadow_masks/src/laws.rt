ghost use Rattle.shadow_masks.specs.Writes.{MapLaw};

/// After any list of writes, saves and restores, a shadow reads as a map from registers and addresses to labels whose
/// default is the clean label. It does nothing when it is called.
pub fn shadow_reads_as_a_map()
    ensures { MapLaw }
{}
