//! What the command line asks for.

/// The words of a command line, read.
#[derive(Debug, PartialEq, Eq, Drop)]
pub enum Words {
    /// A session, with what is wrong in words behind each refusal, or the page of one code; and whether what is wrong is to be
    /// told alone, without the replies.
    Explain(Option<u32>, bool),
    /// A session with a server, and how it is to be held.
    Ask(Ask, Manner),
    /// A tenant of a server as a file.
    Save(Ask),
    /// A file as a tenant of a server, and whether arrays that he has are to be replaced.
    Restore(Ask, bool),
    /// The last run of a session as a task graph; or, where a path is given, the run of the text in C there, with its race.
    Graph(String),
    /// The last run of a session as a program in C.
    C,
    /// Files of requests, or in C, judged with no program run.
    Check(Check),
    /// The same, written as lines.
    Lines(Check),
}

/// A tenant of a server, which listens at a Unix socket.
#[derive(Debug, PartialEq, Eq, Drop)]
pub struct Ask {
    /// The path of the socket.
    pub socket: String,
    /// The name of the tenant.
    pub name: String,
}

/// How a session with a server is to be held.
#[derive(Clone, Copy, Debug, PartialEq, Eq)]
pub struct Manner {
    /// Whether the first refusal is to end it.
    pub stop: bool,
    /// Whether what is wrong is to be told behind each refusal.
    pub explain: bool,
}

/// Files that are to be judged, or written as lines of requests.
#[derive(Debug, PartialEq, Eq, Drop)]
pub struct Check {
    /// Arrays that are there before each file, as `NAME=LEN`.
    pub defined: Vec<String>,
    /// Whether the requests are to be written, one a line, and nothing is judged.
    pub lines: bool,
    /// Whether no line is to tell at the end how many files ended how.
    pub quiet: bool,
    /// Whether of texts in C it isn't to be told what a server refuses.
    pub races_only: bool,
    /// The format; empty where that isn't said.
    pub format: String,
    /// What standard input is called; empty where that isn't said.
    pub name: String,
    /// The paths of the files; `-` is standard input.
    pub files: Vec<String>,
}
