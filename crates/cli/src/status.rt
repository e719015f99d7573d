//! Exit statuses.
ghost use Rattle.std.specs.Prelude.{◌≡◌, ◌≤◌};
ghost use Rattle.std.specs.List.{list_all, list_any};
ghost use Rattle.cli.specs.Status.{IsTold, code_of, is_going, is_return, replay_status, run_status};

use init_engine::{Ending, Rest};

/// How a command ended.
#[derive(Clone, Copy, Debug)]
pub enum Status {
    /// It did what it was asked for, and all threads of a run returned.
    Done,
    /// A class file, a link, an entry or memory was refused.
    Refused,
    /// The words are no command.
    Words,
    /// A file or standard output failed.
    Failed,
    /// No thread of a run has a step, and one has not ended.
    Stuck,
    /// A run came to its limit, and a thread still has a step.
    Limit,
    /// All threads of a run ended, and not all returned.
    Ended,
}

impl Status {
    /// The exit status of the process, from 0 to 6.
    pub fn code(self) -> u8
        ensures code { result ≡ code_of self }
        ensures refused { result ≡ 1 → self ≡ Status.Refused }
        ensures words { result ≡ 2 → self ≡ Status.Words }
        ensures range { result ≤ 6 }
    {
        match self {
            Status::Done => 0,
            Status::Refused => 1,
            Status::Words => 2,
            Status::Failed => 3,
            Status::Stuck => 4,
            Status::Limit => 5,
            Status::Ended => 6,
        }
    }
}

/// The status of a run, from how its threads ended and whether one still has a step.
///
/// A run ends where no thread has a step, or at its limit. So one with a thread that still has a step was ended by the
/// limit.
pub fn status_of(threads: &[Ending], rest: Rest) -> Status
    ensures status { result ≡ run_status threads.now rest }
    ensures told { IsTold result }
{
    match rest {
        Rest::Ended => {
            if all_returned(threads) {
                Status::Done
            } else {
                Status::Ended
            }
        }
        Rest::Stuck => Status::Stuck,
        Rest::Going => Status::Limit,
    }
}

/// The status of a replay: that of a run whose threads ended so, and that of a limit where one goes on.
pub(crate) fn status_of_replay(threads: &[Ending]) -> Status
    ensures status { result ≡ replay_status threads.now }
    ensures told { IsTold result }
{
    if one_goes_on(threads) {
        Status::Limit
    } else {
        status_of(threads, Rest::Ended)
    }
}

fn one_goes_on(threads: &[Ending]) -> bool
    ensures { result ≡ list_any is_going threads.now }
{
    threads.iter().any(|ending| matches!(ending, Ending::Going))
}

fn all_returned(threads: &[Ending]) -> bool
    ensures { result ≡ list_all is_return threads.now }
{
    threads
        .iter()
        .all(|ending| matches!(ending, Ending::Returned))
}
