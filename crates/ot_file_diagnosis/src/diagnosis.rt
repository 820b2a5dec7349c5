//! What is found in a file.
ghost use Rattle.std.specs.Prelude.{◌≡◌, ◌≤◌, length};
ghost use Rattle.ot_file_diagnosis.specs.Diagnoses.{place_in, path_of, from_of};
ghost use Rattle.ot_file_diagnosis.specs.DiagnosisView.{remark_by};

use ot_file_text::{Position, Positions, position_of};

/// How much is wrong.
#[derive(Clone, Copy, Debug, PartialEq, Eq)]
pub enum Severity {
    /// What is told is wrong.
    Error,
    /// What is told is good to know.
    Note,
}

/// What kind of thing is told.
#[derive(Clone, Copy, Debug, PartialEq, Eq)]
pub enum Code {
    /// Two touches race.
    Race,
    /// A task may touch a variable, or what was allocated, behind its end.
    Lifetime,
    /// More races than are told.
    MoreRaces,
    /// The file isn't judged.
    Outside,
    /// Of the file only the run was judged.
    OnlyRun,
    /// What the verdict takes for granted.
    AsIf,
    /// A server refuses a program, by this code.
    Refused(u32),
    /// A server answers a request by this code.
    Answered(u32),
    /// A request has too many bytes.
    Long,
    /// The log has no room for a request.
    Full,
}

/// A byte of a file, by how many stand before it, and its line and column.
#[derive(Clone, Copy, Debug, PartialEq, Eq)]
pub struct Place {
    pub byte: usize,
    pub position: Position,
}

impl Place {
    /// The byte of a text that has so many before it, or the one behind the text.
    pub fn at(text: &[u8], byte: usize) -> Place
        ensures { result ≡ place_in text.now byte }
    {
        Place {
            byte,
            position: position_of(text, byte.min(text.len())),
        }
    }

    /// The same of a text whose positions are asked for one after another.
    pub fn among(positions: &mut Positions<'_>, byte: usize) -> Place
        requires { byte ≤ length positions.old }
        ensures place { result ≡ place_in positions.old byte }
        ensures text { positions.new ≡ positions.old }
    {
        Place {
            byte,
            position: positions.position_of(byte),
        }
    }
}

/// A loop's variable, and its number in one turn.
#[derive(Debug, Drop)]
pub struct Turn {
    pub name: String,
    pub number: u64,
}

/// A file that the one that is judged includes.
#[derive(Debug, Drop)]
pub struct Included {
    pub path: String,
    /// How many bytes stand before it in the text that is shown.
    pub from: usize,
}

/// What is said of a place in a file, or of the file.
#[derive(Debug, Drop)]
pub struct Remark {
    /// None where it is said of the whole file.
    pub place: Option<Place>,
    /// The file in which the place stands, where it isn't the one that is judged.
    pub file: Option<Included>,
    /// The turns of the loops around the place, the outermost first.
    pub turns: Vec<Turn>,
    pub message: String,
}

impl Remark {
    /// The path of its file, where the one that is judged has this name.
    pub(crate) fn path<'a>(&'a self, name: &'a str) -> &'a str
        ensures { result.now ≡ path_of name.now (remark_by self.now) }
    {
        match &self.file {
            Some(file) => file.path.as_str(),
            None => name,
        }
    }

    /// How many bytes stand before its file in the text that is shown.
    pub(crate) fn from(&self) -> usize
        ensures { result ≡ from_of (remark_by self.now) }
    {
        match &self.file {
            Some(file) => file.from,
            None => 0,
        }
    }
}

/// What is found in a file.
#[derive(Debug, Drop)]
pub struct Diagnosis {
    pub severity: Severity,
    pub code: Code,
    pub told: Remark,
    /// What else is said of it.
    pub notes: Vec<Remark>,
}
