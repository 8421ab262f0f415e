//! The answer to words: they name a command, its files are loaded, what it asks for is read of them, and that is made.

ghost use Rattle.std.specs.Prelude.{◌≡◌, ◌≢◌, ◌≤◌, ◌∷◌, [], Err, map, string_bytes};
ghost use Rattle.command_tasks.specs.LoadCounts.{CountsFault, KeepsCount};
ghost use Rattle.command_tasks.specs.declared.refusals.Refusal.TheVariants.{Memory};
ghost use Rattle.command_line.specs.CommandLines.{command_in};
ghost use Rattle.command_tasks.specs.Loading.{Leaves, LeavesPart};
ghost use Rattle.commands.specs.Replies.{AnswersWords, wants_in};

use command_line::command_line;
use command_tasks::{Refusal, load_all, read_task, wants_of};
use flow_base::Files;
use std::alloc::Global;
use task_answers::{Reply, answer_task};
use transfer_rules::RuleBook;

/// The answer to the words of a command line.
#[tactic(auto, using(crate::proofs::Wanted::no_loads, crate::proofs::Wanted::first_loads, crate::proofs::Wanted::all_loads))]
pub fn answer<F: Files>(
    alloc: Global,
    files: &mut F,
    words: &[String],
    books: &[RuleBook],
) -> Result<Reply, Refusal>
    requires books { map (λ book. book.table) books.now ≡ 1 ∷ 2 ∷ 3 ∷ [] }
    ensures answers { result ≢ Err Memory → AnswersWords (F.told files.old) (map string_bytes words.now) result }
    ensures leaves { result ≢ Err Memory → Leaves (F.told files.old) (wants_in (command_in (map string_bytes words.now)))
        (F.told files.new) }
    ensures part { LeavesPart (F.told files.old) (wants_in (command_in (map string_bytes words.now))) (F.told
        files.new) }
    ensures cause { CountsFault result (F.faults files.old) (F.faults files.new) }
    ensures kept { KeepsCount result (F.faults files.old) (F.faults files.new) }
    ensures faults { F.faults files.old ≤ F.faults files.new }
{
    let Some(command) = command_line(alloc, words)? else {
        return Err(Refusal::Usage);
    };
    let wants = wants_of(alloc, &command)?;
    let loaded = load_all(alloc, files, wants.as_slice())?;
    let task = read_task(alloc, &command, loaded.as_slice())?;
    answer_task(alloc, &task, books)
}
