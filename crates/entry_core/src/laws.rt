//! Laws over the definitions alone, each as the contract of a function that does nothing.

ghost use Rattle.entry_core.specs.Law.{AttemptsAreFew, JobsAreDecidedOnce, LargeBudgetsAnswer};
ghost use Rattle.entry_core.specs.Law.{LongerJournalKeeps, PacketsAreBounded, PacketsAreOk};
ghost use Rattle.entry_core.specs.Law.{SharedStepsFollow, VerdictsHaveCauses};

/// In a legal journal every step of a shared packet follows from the input clauses up to its tag.
pub fn shared_steps_follow()
    ensures { SharedStepsFollow }
{}

/// In a legal journal the shared packets are ok, one after the other, over the input clauses.
pub fn packets_are_ok()
    ensures { PacketsAreOk }
{}

/// In a legal journal the last clause of each shared packet has at most 8 literals and is no
/// tautology, its tag is at most the number
/// of jobs, and its variables are at most the greatest one of the input clauses up to its tag.
pub fn packets_are_bounded()
    ensures { PacketsAreBounded }
{}

/// A longer journal keeps the jobs, the database and the verdicts.
pub fn longer_journal_keeps()
    ensures { LongerJournalKeeps }
{}

/// In a legal journal each verdict has its cause: a right answer, a cancel, an earlier model, spent
/// budgets or want of memory.
pub fn verdicts_have_causes()
    ensures { VerdictsHaveCauses }
{}

/// A job isn't given up with a budget that is greater than the number of clauses over its
/// variables.
pub fn large_budgets_answer()
    ensures { LargeBudgetsAnswer }
{}

/// In a legal journal at most one entry decides a job.
pub fn jobs_are_decided_once()
    ensures { JobsAreDecidedOnce }
{}

/// In a legal journal at most as many attempts were begun at each job as the rules allow. In all
/// they are at most 67,108,864 where the rules are within their limits.
pub fn attempts_are_few()
    ensures { AttemptsAreFew }
{}
