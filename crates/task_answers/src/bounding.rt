//! The outputs of all secrets of a guest, bounded by a cut.

ghost use Rattle.std.specs.Prelude.{◌≡◌, ◌∷◌, ◌<◌, [], Ok as Fine, map, IfOk};
ghost use Rattle.every_secret.specs.AnyPublic.{TellsOf, seen_task};
ghost use Rattle.every_secret.specs.Bounds.{Found, HasMorePaths, IsBounded, IsUnclear, IsVerdict, summary_in, summary_of};
ghost use Rattle.command_tasks.specs.ReadTasks.{IsBoundedAll, all_secrets_in};
ghost use Rattle.task_answers.specs.Bounding.{AnswersAllSecrets, AnswersBound, AnswersTooMany, bound_limits, bound_of, rules_by};
ghost use Rattle.task_answers.specs.Bounding.{public_of, tree_in};
ghost use Rattle.task_answers.specs.Checks.{judged_by};

use crate::books::book_of;
use crate::bound_lines::{bounded_line, listing, public_text, too_many_line, unclear_line};
use crate::replies::Reply;
use command_tasks::{AllSecretsTask, Status};
use crossing_bits::Bits;
use every_secret::{
    BoundVerdict, Bounded, PublicInput, UnclearWhy, bound, tables_are_sound, tables_have_rules,
};
use flow_base::{Bytes, NoMemory};
use std::alloc::Global;
use transfer_rules::RuleBook;

/// What is known of the public input.
fn known_of(all: &AllSecretsTask) -> PublicInput
    ensures { result ≡ public_of (all_secrets_in all.now) }
{
    if all.settings.any_public {
        PublicInput::Any
    } else {
        PublicInput::Given
    }
}

/// What is known of the outputs of all secrets.
fn verdict_on(
    alloc: Global,
    all: &AllSecretsTask,
    books: &[RuleBook],
) -> Result<BoundVerdict, NoMemory>
    requires books { map (λ book. book.table) books.now ≡ 1 ∷ 2 ∷ 3 ∷ [] }
    requires bounded { IsBoundedAll all.now }
    ensures answer { IfOk result (λ verdict. IsVerdict (rules_by all.now.settings.table (public_of (all_secrets_in all.now)))
        (seen_task (public_of (all_secrets_in all.now)) (judged_by (all_secrets_in all.now).guest (all_secrets_in all.now).cut))
        (bound_limits (all_secrets_in all.now)) all.now.settings.paths verdict) }
    ensures all { TellsOf (public_of (all_secrets_in all.now))
        (judged_by (all_secrets_in all.now).guest (all_secrets_in all.now).cut)
        (bound_limits (all_secrets_in all.now)) (bound_of (all_secrets_in all.now)) }
{
    tables_have_rules();
    tables_are_sound();
    bound(
        alloc,
        &all.guest.image,
        all.guest.public_input,
        known_of(all),
        &all.guest.regions,
        &all.cut,
        book_of(books, all.settings.table),
        all.settings.budget,
        all.settings.turns,
        all.settings.paths,
    )
}

/// The reply to what all paths show.
fn bounded_reply(alloc: Global, all: &AllSecretsTask, found: &Bounded) -> Result<Reply, NoMemory>
    ensures { IfOk result (λ reply. (all_found : Found) → summary_in found.now ≡ summary_of all_found →
        TellsOf (public_of (all_secrets_in all.now))
        (judged_by (all_secrets_in all.now).guest (all_secrets_in all.now).cut)
        (bound_limits (all_secrets_in all.now)) (IsBounded all_found) →
        AnswersBound (all_secrets_in all.now) (IsBounded all_found) (Fine reply)) }
{
    let lines = listing(alloc, all.settings.listed, found)?;
    let regions = all.guest.regions.items.len();
    let public = public_text(alloc, all.settings.any_public, all.guest.public_input.len())?;
    let last = bounded_line(alloc, all.cut.secret_len, public.as_slice(), regions, found)?;
    let mut text = lines;
    text.extend_from_slice(last.as_slice())?;
    Ok(Reply {
        status: Status::Done,
        text: Bytes::from_vec(text),
    })
}

/// The reply to a path that is unclear.
fn unclear_reply(
    alloc: Global,
    all: &AllSecretsTask,
    path: &Bits,
    why: UnclearWhy,
) -> Result<Reply, NoMemory>
    ensures { IfOk result (λ reply. AnswersBound (all_secrets_in all.now) (IsUnclear path.now.bits why) (Fine reply)) }
{
    let _ = all;
    let text = unclear_line(alloc, path, why)?;
    Ok(Reply {
        status: Status::Rejected,
        text,
    })
}

/// The reply where as many walks were made as may be, the last along this string.
fn too_many_reply(alloc: Global, all: &AllSecretsTask, path: &Bits) -> Result<Reply, NoMemory>
    requires { HasMorePaths (tree_in (all_secrets_in all.now)) all.now.settings.paths path.now.bits }
    ensures { IfOk result (λ reply. AnswersTooMany (all_secrets_in all.now) (Fine reply)) }
{
    let text = too_many_line(alloc, path, all.settings.paths)?;
    Ok(Reply {
        status: Status::Rejected,
        text,
    })
}

/// The reply to all secrets whose outputs are to be bounded.
pub fn bound_all(alloc: Global, all: &AllSecretsTask, books: &[RuleBook]) -> Result<Reply, NoMemory>
    requires books { map (λ book. book.table) books.now ≡ 1 ∷ 2 ∷ 3 ∷ [] }
    requires bounded { IsBoundedAll all.now }
    ensures { IfOk result (λ reply. AnswersAllSecrets (all_secrets_in all.now) (Fine reply)) }
{
    match verdict_on(alloc, all, books)? {
        BoundVerdict::Bounded(found) => bounded_reply(alloc, all, &found),
        BoundVerdict::Unclear { path, why } => unclear_reply(alloc, all, &path, why),
        BoundVerdict::TooMany { path, .. } => too_many_reply(alloc, all, &path),
    }
}
