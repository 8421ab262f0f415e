ghost use Rattle.std.specs.Prelude.{◌≡◌};
ghost use Rattle.cut_file.specs.Pictures.{cut_picture};
ghost use Rattle.lockstep_replay.specs.LentTasks.{limits_in as lent_limits, task_in};
ghost use Rattle.replay_machine.specs.Visits.{SameAhead};
ghost use Rattle.command_tasks.specs.ReadTasks.{guest_in};
ghost use Rattle.task_answers.specs.Private.JudgedLimits.{limits_in};
ghost use Rattle.task_answers.specs.Checks.{judged_by};

use crate::limits::Limits;
use command_tasks::Guest;
use cut_file::Cut;
use lockstep_replay::LentTask;
use replay_machine::CutTable;

/// What the secrets of a guest are judged by, lent to each of them.
pub(crate) fn lent_task<'c>(
    guest: &'c Guest<'c>,
    cut: &'c Cut,
    table: &'c CutTable,
    limits: Limits,
) -> LentTask<'c>
    requires { SameAhead table.now cut.now.points }
    ensures task { task_in result ≡ judged_by (guest_in guest.now) (cut_picture cut.now) }
    ensures limits { lent_limits result ≡ limits_in limits }
{
    LentTask {
        image: &guest.image,
        public: guest.public_input,
        regions: &guest.regions,
        cut,
        table,
        budget: limits.budget,
        turns: limits.turns,
    }
}
