//! Laws over what runs show and over texts, as contracts of functions that do nothing.

ghost use Rattle.tarmo_run.specs.Agreement.{RunsAgree};
ghost use Rattle.tarmo_run.specs.Fitting.{TextsFitOnBoards};

/// Two runs over one text agree: where both answer a job SATISFIABLE or UNSATISFIABLE, they give
/// the same of the two, with whatever workers and however their threads were scheduled. What is
/// asked of a run is what `run` and `run_alone` promise.
pub fn runs_agree()
    ensures { RunsAgree }
{}

/// No text has more jobs, clauses or literals than a board may have: a board whose jobs are the
/// first queries of a text refuses the next one only where its input is closed or memory is
/// wanting.
pub fn texts_fit_on_boards()
    ensures { TextsFitOnBoards }
{}
