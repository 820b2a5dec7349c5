ghost use Rattle.std.specs.Prelude.{◌≡◌, ◌<◌, length, ℕ, Bool, All};
ghost use Rattle.ot_job.specs.Claiming.{is_claimable};
ghost use Rattle.ot_depend.specs.Siblings.{is_ready};
ghost use Rattle.ot_job.specs.Numbered.{at};
ghost use Rattle.ot_job_roster.specs.Members.{Tells};
ghost use Rattle.ot_job.specs.Listing.{IsRefreshed, members};

use ot_job_roster::Roster;
use ot_job_task::Task;

/// Whether a child may begin as far as its earlier siblings go.
fn is_ready(tasks: &[Task], parent: usize, child: usize) -> bool
    ensures { result ≡ is_ready (at tasks.now parent).children child }
{
    if parent >= tasks.len() {
        return false;
    }
    tasks[parent].lets_begin(child)
}

/// Whether a piece of the task may be claimed.
pub fn is_claimable(tasks: &[Task], i: usize) -> bool
    requires known { i < length tasks.now }
    ensures { result ≡ is_claimable tasks.now i }
{
    let task = &tasks[i];
    let (parent, child) = task.place_among();
    task.is_idle() && (i == 0 || is_ready(tasks, parent, child)) && task.is_let_go()
}

/// Looks which of some children of a task are claimable now. It takes no memory.
pub fn refresh_children(roster: &mut Roster, tasks: &[Task], parent: usize, children: &[usize])
    requires told { (test : ℕ → Bool) × Tells (length tasks.now) (members tasks.now) test roster.old }
    requires children { All (λ c. c < length (at tasks.now parent).children) children.now }
    ensures { (old : ℕ → Bool) → Tells (length tasks.now) (members tasks.now) old roster.old → IsRefreshed tasks.now parent children.now old roster.new }
{
    for child in children {
        let number = roster.child(parent, *child);
        roster.mark(number, is_claimable(tasks, number));
    }
}
