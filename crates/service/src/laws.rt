//! Laws over two states of one pass. They are contracts of functions that do nothing.

ghost use Rattle.service.specs.Law.{VerdictsAreReadAgain, OutcomesAreReadAgain, JobsAreFoundAgain};

/// A verdict once read is read again: each later answer to the same pass is the same verdict, or
/// says that there was no memory.
pub fn verdicts_are_read_again()
    ensures { VerdictsAreReadAgain }
{}

/// An outcome once read is read again: each later look of the same pass finds it.
pub fn outcomes_are_read_again()
    ensures { OutcomesAreReadAgain }
{}

/// A job once added is found again, with its clauses and its cube, in whatever the same pass sees
/// later.
pub fn jobs_are_found_again()
    ensures { JobsAreFoundAgain }
{}
