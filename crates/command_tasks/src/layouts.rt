//! The loaded files of a command, each by what it is for.

ghost use Rattle.std.specs.Prelude.{◌≡◌, ◌≤◌, ◌++◌, ◌∷◌, [], ℕ, List as Seq, Option as Maybe, length, map, is_some, option_map};
ghost use Rattle.command_line.specs.Words.{guest_of};
ghost use Rattle.command_tasks.specs.FileLimits.{limit_of};
ghost use Rattle.command_tasks.specs.Guests.{AreGuestFiles, and_others, guest_wants, region_wants, secret_wants};
ghost use Rattle.command_tasks.specs.Loading.{AreWithin, Want, want};
ghost use Rattle.command_tasks.specs.ReadTasks.{AreShort};
ghost use Rattle.command_tasks.specs.Private.LoadedFiles.{files_in};
ghost use Rattle.command_tasks.specs.declared.kinds.FileKind.TheVariants as kinds;

use crate::guests::GuestFiles;
use command_line::{AllSecretsWords, CheckWords, ManyRunsWords, RunWords};
use flow_base::Bytes;

/// The region file, where one is named, and the secrets.
fn others_of<'a>(named: bool, others: &'a [Bytes]) -> (Option<&'a Bytes>, &'a [Bytes])
    requires within { (name : Maybe (Seq ℕ)) × (names : Seq (Seq ℕ)) × (is_some name ≡ named)
        × AreWithin (region_wants name ++ secret_wants names) others.now }
    ensures parts { others.entry.now ≡ and_others (option_map (λ bytes. bytes.now) result.0) result.1.now }
    ensures named { is_some result.0 ≡ named }
    ensures short { AreShort result.1.now }
    ensures count { (name : Maybe (Seq ℕ)) → (names : Seq (Seq ℕ)) → is_some name ≡ named
        → AreWithin (region_wants name ++ secret_wants names) others.entry.now
        → length result.1.now ≡ length names }
{
    if !named {
        return (None, others);
    }
    let [regions, secrets @ ..] = others else {
        unreachable!();
    };
    (Some(regions), secrets)
}

/// The files of a check: those of the guest, the cut, and the secrets.
pub fn files_of_check<'a>(
    check: &CheckWords,
    files: &'a [Bytes],
) -> (GuestFiles<'a>, &'a Bytes, &'a [Bytes])
    requires within { AreWithin (guest_wants (guest_of check.now.guest) (want check.now.cut.now kinds.Cut ∷ [])
        (map (λ word. word.now) check.now.secrets)) files.now }
    ensures are { AreGuestFiles (guest_of check.now.guest) files.entry.now (files_in result.0) (result.1.now ∷ [])
        result.2.now }
    ensures program { length result.0.program.now ≤ 16777216 }
    ensures cut { length result.1.now ≤ 67108864 }
    ensures short { AreShort result.2.now }
{
    let [program, public_input, cut, others @ ..] = files else {
        unreachable!();
    };
    let (regions, secrets) = others_of(check.guest.regions.is_some(), others);
    let guest = GuestFiles {
        program,
        public_input,
        regions,
    };
    (guest, cut, secrets)
}

/// The files of a bound: those of the guest, and the cut.
pub fn files_of_all_secrets<'a>(
    all: &AllSecretsWords,
    files: &'a [Bytes],
) -> (GuestFiles<'a>, &'a Bytes)
    requires within { AreWithin (guest_wants (guest_of all.now.guest) (want all.now.cut.now kinds.Cut ∷ []) [])
        files.now }
    ensures are { AreGuestFiles (guest_of all.now.guest) files.entry.now (files_in result.0) (result.1.now ∷ []) [] }
    ensures program { length result.0.program.now ≤ 16777216 }
    ensures cut { length result.1.now ≤ 67108864 }
{
    let [program, public_input, cut, others @ ..] = files else {
        unreachable!();
    };
    let (regions, secrets) = others_of(all.guest.regions.is_some(), others);
    let [] = secrets else {
        unreachable!();
    };
    let guest = GuestFiles {
        program,
        public_input,
        regions,
    };
    (guest, cut)
}

/// The files of a run: those of the guest, and the secret.
pub fn files_of_run<'a>(run: &RunWords, files: &'a [Bytes]) -> (GuestFiles<'a>, &'a Bytes)
    requires within { AreWithin (guest_wants (guest_of run.now.guest) [] (run.now.secret.now ∷ [])) files.now }
    ensures are { AreGuestFiles (guest_of run.now.guest) files.entry.now (files_in result.0) [] (result.1.now ∷ []) }
    ensures program { length result.0.program.now ≤ 16777216 }
    ensures short { length result.1.now ≤ 65536 }
{
    let [program, public_input, others @ ..] = files else {
        unreachable!();
    };
    let (regions, secrets) = others_of(run.guest.regions.is_some(), others);
    let [secret] = secrets else {
        unreachable!();
    };
    let guest = GuestFiles {
        program,
        public_input,
        regions,
    };
    (guest, secret)
}

/// The files of several runs: those of the guest, and the secrets.
pub fn files_of_many_runs<'a>(
    runs: &ManyRunsWords,
    files: &'a [Bytes],
) -> (GuestFiles<'a>, &'a [Bytes])
    requires within { AreWithin (guest_wants (guest_of runs.now.guest) [] (map (λ word. word.now) runs.now.secrets))
        files.now }
    ensures are { AreGuestFiles (guest_of runs.now.guest) files.entry.now (files_in result.0) [] result.1.now }
    ensures program { length result.0.program.now ≤ 16777216 }
    ensures short { AreShort result.1.now }
    ensures count { length result.1.now ≡ length runs.now.secrets }
{
    let [program, public_input, others @ ..] = files else {
        unreachable!();
    };
    let (regions, secrets) = others_of(runs.guest.regions.is_some(), others);
    let guest = GuestFiles {
        program,
        public_input,
        regions,
    };
    (guest, secrets)
}

/// The one file of a command.
pub fn one_file<'a>(files: &'a [Bytes]) -> &'a Bytes
    requires { (wanted : Want) × AreWithin (wanted ∷ []) files.now }
    ensures is { files.entry.now ≡ result.now ∷ [] }
    ensures short { (wanted : Want) → AreWithin (wanted ∷ []) files.entry.now → length result.now ≤ limit_of wanted.kind }
{
    let [file] = files else {
        unreachable!();
    };
    file
}
