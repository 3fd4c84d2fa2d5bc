//! What help says, and the version: texts of which no contract speaks.

/// What the help of a command says.
#[derive(Clone, Copy)]
pub struct Help {
    /// What the command does.
    pub about: &'static str,
    /// What stands below: an example, where there is one, and where to read on.
    pub below: &'static str,
}

/// What `--version` tells behind the program's name.
pub const VERSION: &str = "1.0.0";

/// The help of the program.
pub const PROGRAM: Help = Help {
    about: "The hub of the medicines verification system, and the national repositories",
    below: "docs/TOUR.md is a day at the hub, line by line; docs/FORMATS.md has every line and every reply, docs/OPERATING.md what each means.",
};

/// The help of `steps`.
pub const STEPS: Help = Help {
    about: "Answers steps: a JSON object a line, from standard input to standard output",
    below: "A line, and what comes out:\n  {\"do\":\"open\",\"parties\":[[],[\"FI\"]],\"submissions\":1000,\"uplink\":8,\"window\":8,\"wire\":8}\n  {\"opened\":2}\n\nWith --strict, a line that is not taken, and what is told on standard error:\n  {\"do\":\"opne\"}\n  mvhub: lines not taken: 1, the first: 1\n\nEvery line and every reply: docs/FORMATS.md. What each means: docs/OPERATING.md. A day of them: docs/TOUR.md.",
};

/// What `--strict` is.
pub const STRICT: &str =
    "Ends with status 1 where a line was not taken, and tells how many and the first on standard error";

/// The help of `trail`.
pub const TRAIL: Help = Help {
    about: "Takes the lines of steps, and writes what each did: an event a line, with the number of its line",
    below: "A line, and what comes out:\n  {\"do\":\"open\",\"parties\":[[],[\"FI\"]],\"submissions\":1000,\"uplink\":8,\"window\":8,\"wire\":8}\n  {\"event\":\"opened\",\"line\":1,\"parties\":[[],[\"FI\"]],\"submissions\":1000,\"uplink\":8,\"window\":8,\"wire\":8}\n\nEvery event: docs/FORMATS.md. How to ask them for the history of a pack: docs/OPERATING.md.",
};

/// The help of `show`.
pub const SHOW: Help = Help {
    about: "Takes the lines of steps, and writes what stands after them: parties, products, recalls, packs and links",
    below: "A line, and what comes out, a line for each party:\n  {\"do\":\"open\",\"parties\":[[\"FI\"]],\"submissions\":1000,\"uplink\":8,\"window\":8,\"wire\":8}\n  {\"active\":0,\"applied\":0,\"packs\":0,\"party\":0,\"products\":0,\"recalled\":0,\"routed\":0,\"show\":\"party\",\"submitted\":0}\n\nEvery line that is shown: docs/FORMATS.md. What to look for: docs/OPERATING.md.",
};

/// The help of `canon`.
pub const CANON: Help = Help {
    about: "Writes messages as their canonical texts: a JSON object a line, from standard input to standard output",
    below: "A line, and what comes out:\n  {\"serial\":\"S1\",\"gtin\":\"9506000134352\",\"msg\":\"query\"}\n  {\"gtin\":\"09506000134352\",\"msg\":\"query\",\"serial\":\"S1\"}\n\nWith --check, a message that is refused, and what comes out:\n  {\"gtin\":\"09506000134353\",\"msg\":\"query\",\"serial\":\"S1\"}\n  {\"fault\":\"P3\",\"field\":\"gtin\",\"line\":1,\"refused\":\"M6\"}\n\nEvery message, its fields and its faults: docs/FORMATS.md.",
};

/// What `--check` is.
pub const CHECK: &str =
    "Writes no message, and for each that is refused its refusal with the number of its line; ends with status 1 where there is one";

/// The help of `work`.
pub const WORK: Help = Help {
    about: "Carries out a plan in threads: a JSON object a line from standard input, a report to standard output",
    below: "A line, and how the report of a plan of that line alone ends:\n  {\"do\":\"open\",\"parties\":[[],[\"FI\"]],\"submissions\":1000,\"uplink\":8,\"window\":8,\"wire\":8}\n  finished\n\nThe lines of a plan, and its report: docs/FORMATS.md. What each means: docs/OPERATING.md.",
};

/// What `--turns` is.
pub const TURNS: &str = "How many turns the hub and each party take at most";

/// The help of `explain`.
pub const EXPLAIN: Help = Help {
    about: "Says what codes of replies and of standard error mean, and what to do: a line each",
    below: "Words, and what comes out:\n  mvhub explain S7\n  S7 The wire is full: apply or lose its front frame first.\n\nEvery code: docs/OPERATING.md. Where each comes from: docs/FORMATS.md.",
};

/// What the words of `explain` are.
pub const CODES: &str = "A code, as P3, S6, E12 or V2";
