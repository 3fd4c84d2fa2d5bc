//! The exit statuses of the program.

ghost use Rattle.std.specs.Prelude.{◌≡◌, ◌≤◌};
ghost use Rattle.mv_tool.specs.Statuses.{status_code};

/// How the program ended.
#[derive(Clone, Copy, PartialEq, Eq)]
pub enum Status {
    /// 0: what was asked for is done, help included.
    Done,
    /// 1: the run ended early, by a fault that stands on standard error; or the plan of `work` was not finished, as its report says; a
    /// line of `steps --strict` was not taken, a message of `canon --check` was refused, or `show` had no system.
    Failed,
    /// 2: the command line was refused, or a word of `explain` is no code, and the reason stands on standard error.
    Refused,
}

impl Status {
    /// The exit status.
    pub fn code(self) -> u8
        ensures code { result ≡ status_code self }
        ensures few { result ≤ 2 }
    {
        match self {
            Status::Done => 0,
            Status::Failed => 1,
            Status::Refused => 2,
        }
    }
}
