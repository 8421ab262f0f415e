ghost use Rattle.std.specs.Prelude.{◌≡◌, ◌≢◌, ◌≤◌, ◌∷◌, [], map, string_bytes, IsTrue};
ghost use Rattle.commands.specs.Clauses.{CountsFaults, IsPut, IsReply};
ghost use Rattle.command_line.specs.CommandLines.{command_in};
ghost use Rattle.command_tasks.specs.Loading.{Leaves, LeavesPart};
ghost use Rattle.commands.specs.Replies.{Reply as WholeReply, wants_in};
ghost use Rattle.flow_base.specs.Listed.{is_listed};

use crate::answering::answer;
use command_tasks::Status;
use flow_base::{Files, NoMemory, Sink};
use std::alloc::Global;
use task_answers::{Reply, reply_of};
use transfer_rules::RuleBook;

/// Answers the words of a command line, which are those after the program's name: files are loaded from `files`, the
/// whole text is made first, and it is put to `out` by one put.
///
/// The answer is a status: 0 where a command is done, and of secrets where all are accepted or clean, of a bound where it
/// is known, of a certificate where it is verified; 1 where some secret is rejected or unclear, a path of a bound is
/// unclear, or the certificate is rejected; 2 where the words are no command line; 3 where a program, a region file, a
/// cut, a source or a certificate is malformed; 4 where the run of a guest is not measured or no declaration is learnt of
/// it; 5 where a load failed; 6 where a file has more bytes than its limit; 7 where the put failed; and 8 out of
/// memory, and then nothing is put. `books` has the books of the mask rules of tables 1, 2 and 3, in this order, by which
/// runs are measured, secrets followed and outputs bounded. What the reply is, where words have one alone, and which status
/// files that are well formed have, say the laws `replies_are_one` and `replies_are_complete` of `reply_laws`.
pub fn flowcheck<F: Files, K: Sink>(
    alloc: Global,
    words: Vec<String>,
    files: &mut F,
    out: &mut K,
    books: &[RuleBook],
) -> u8
    requires books { map (λ book. book.table) books.now ≡ 1 ∷ 2 ∷ 3 ∷ [] }
    ensures known { IsTrue (is_listed (0 ∷ 1 ∷ 2 ∷ 3 ∷ 4 ∷ 5 ∷ 6 ∷ 7 ∷ 8 ∷ []) result) }
    ensures reply { result ≢ 8 →
        (reply : WholeReply) × IsReply (F.told files.old) (map string_bytes words.items) reply
        × IsPut reply result (K.told out.old) (K.told out.new) }
    ensures memory { result ≡ 8 → K.told out.new ≡ K.told out.old }
    ensures loads { result ≢ 8 → Leaves (F.told files.old) (wants_in (command_in (map string_bytes words.items)))
        (F.told files.new) }
    ensures first_loads { LeavesPart (F.told files.old) (wants_in (command_in (map string_bytes words.items)))
        (F.told files.new) }
    ensures faults { CountsFaults result (F.faults files.old) (F.faults files.new) (K.faults out.old) (K.faults
        out.new) }
{
    let Ok(reply) = reply_of(alloc, answer(alloc, files, words.as_slice(), books)) else {
        return Status::NoMemory.number();
    };
    match out.put(reply.text.as_slice()) {
        Ok(()) => reply.status.number(),
        Err(_) => Status::PutFailed.number(),
    }
}
