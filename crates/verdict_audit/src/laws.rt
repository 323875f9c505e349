//! Laws over the definitions alone, each as the contract of a function that does nothing.

ghost use Rattle.verdict_audit.specs.Law.{AcceptedIsRight, HasOneFinding};

/// Each model that an accepted output shows is a model of its job's clauses and cube, and of each
/// part that it shows the job's clauses entail that one literal is false.
pub fn accepted_is_right()
    ensures { AcceptedIsRight }
{}

/// An audit has one finding: an output that is good isn't bad too, and where it is bad, the line
/// and the reason are the only ones.
pub fn audit_has_one_finding()
    ensures { HasOneFinding }
{}
