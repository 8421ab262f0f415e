ghost use Rattle.every_secret.specs.Laws.{AllPairsLaw, AllSecretsLaw, RunLaw};
ghost use Rattle.every_secret.specs.Rules.{TablesAreSound, TablesHaveRules};
ghost use Rattle.every_secret.specs.States.{SameTreesLaw};

/// A law, which does nothing when it is called: what a book of table 1, of table 2 or of table 3 answers is a function,
/// that of the table.
pub fn tables_have_rules()
    ensures { TablesHaveRules }
{}

/// A law, which does nothing when it is called: the rules of tables 1, 2 and 3 are sound.
pub fn tables_are_sound()
    ensures { TablesAreSound }
{}

/// A law, which does nothing when it is called: by any sound rules, the run of a secret that breaks no region chooses a
/// path of the masked replay, with whose pattern its output agrees and with which it is accepted; or it does not exit. So
/// it is for each public input for which the one that is walked stands.
pub fn runs_choose_paths()
    ensures { RunLaw }
{}

/// A law, which does nothing when it is called: where the answer for a task is bounded, by any sound rules, each secret
/// whose run exits and breaks no region is accepted, and one of the patterns stands for its output; the patterns count
/// all these outputs, and at most 2 to the budget; and with no region and no path that stops every secret's run exits.
pub fn bounds_tell_of_all_secrets()
    ensures { AllSecretsLaw }
{}

/// A law, which does nothing when it is called: where the public input is not known and the answer is bounded, by any
/// sound rules, each pair of a public input of its length and a secret whose run exits and breaks no region is accepted,
/// and one of the patterns stands for its output; the patterns count the outputs of all pairs; and runs on one secret,
/// each with a public input that is chosen by the outputs so far, have at most that power of different lists of outputs.
pub fn bounds_tell_of_all_pairs()
    ensures { AllPairsLaw }
{}

/// A law, which does nothing when it is called: where every path below a place of the masked replay ends, neither unclear
/// nor by the limit of turns, what is below another place with the same state is the same, if as many turns and as many
/// bits of the budget are left there as these paths take.
pub fn same_states_have_the_same_below()
    ensures { SameTreesLaw }
{}
