//! Laws over the definitions alone, each as the contract of a function that does nothing.

ghost use Rattle.trace_trim.specs.Law.{OkStepsHaveTraces};

/// Each own step that is ok has a trace, whether one is ever made or not: the traces of what its
/// hints name one behind the other, and the step.
pub fn ok_steps_have_traces()
    ensures { OkStepsHaveTraces }
{}
