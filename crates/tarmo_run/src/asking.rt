//! What the words ask a run to do.

ghost use Rattle.std.specs.Prelude.{◌≡◌, None, Some, map, option_map, string_bytes};
ghost use Rattle.std.specs.Prelude.{IfErr, IfOk};
ghost use Rattle.entry_core.specs.Legal.{AreWithinLimits};
ghost use Rattle.words.specs.Accepted.{Asked, accepted, input_of};
ghost use Rattle.tarmo_run.specs.Asking.{rules_of, shared_rules_of};
ghost use Rattle.tarmo_run.specs.Desk.{IsAlone};
ghost use Rattle.tarmo_run.specs.Task.{shared_rules};

use entry_core::Rules;
use std::alloc::Global;
use words::{WordsFault, Work, read_words};

/// The rules of a run on one thread, how many workers one on many has, and what it works on.
#[derive(Drop)]
pub(crate) struct Task {
    pub(crate) rules: Rules,
    pub(crate) workers: u32,
    pub(crate) work: Work,
}

impl Task {
    /// What the words ask for.
    pub(crate) fn read(alloc: Global, words: &[String]) -> Result<Task, WordsFault>
        ensures rules { IfOk result (λ task.
            option_map rules_of (accepted (map string_bytes words.now)) ≡ Some task.rules) }
        ensures work { IfOk result (λ task. (command : Asked) →
            accepted (map string_bytes words.now) ≡ Some command →
            command.work ≡ input_of task.work) }
        ensures shared { IfOk result (λ task. option_map shared_rules_of
            (accepted (map string_bytes words.now)) ≡ Some (shared_rules task)) }
        ensures limits { IfOk result (λ task. AreWithinLimits task.rules) }
        ensures few { IfOk result (λ task. AreWithinLimits (shared_rules task)) }
        ensures alone { IfOk result (λ task. IsAlone task.rules) }
        ensures refused { IfErr result (λ fault. fault ≡ WordsFault.Refused →
            accepted (map string_bytes words.now) ≡ None) }
    {
        let command = read_words(alloc, words)?;
        let rules = Rules {
            clients: 1,
            workers: 1,
            attempts: command.attempts,
            conflicts: command.conflicts,
            first: command.first,
            traces: command.trace,
        };
        Ok(Task {
            rules,
            workers: command.workers,
            work: command.work,
        })
    }

    /// The rules of a run on many threads: with two clients, and the workers of the words.
    pub(crate) fn shared_rules(&self) -> Rules
        ensures { result ≡ shared_rules self.now }
    {
        Rules {
            clients: 2,
            workers: self.workers,
            ..self.rules
        }
    }
}
