ghost use Rattle.run_labels.specs.Laws.{PlaceLaw, BeginningsLaw};

/// A run with labels stands where the real run does, whatever the mask rules answer; and each beginning of a run that is
/// not refused is a run that is not refused. It does nothing when it is called.
pub fn labelled_runs_are_real_runs()
    ensures places { PlaceLaw }
    ensures beginnings { BeginningsLaw }
{}
