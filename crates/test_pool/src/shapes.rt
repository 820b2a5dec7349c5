//! Shapes of jobs that are measured.
use ot_check::JobSpec;
use ot_program::ProgramFault;
use std::alloc::{AllocError, Global};
use test_reading::job_over;

#[derive(Clone, Copy)]
pub(crate) enum Shape {
    Independent,
    Chain,
    Adders,
    Tree,
    Wavefront,
    Readers,
}

/// How large a job is.
#[derive(Clone, Copy)]
pub(crate) struct Size {
    /// How many tasks it has, but for a tree, which has two less.
    pub tasks: u32,
    /// How many levels of tasks a tree has.
    levels: u32,
    /// How many tasks a wavefront has on each side.
    side: u32,
}

pub(crate) const SIZES: [Size; 3] = [
    Size {
        tasks: 64,
        levels: 5,
        side: 8,
    },
    Size {
        tasks: 256,
        levels: 7,
        side: 16,
    },
    Size {
        tasks: 1024,
        levels: 9,
        side: 32,
    },
];

impl Shape {
    pub(crate) const ALL: [Shape; 6] = [
        Shape::Independent,
        Shape::Chain,
        Shape::Adders,
        Shape::Tree,
        Shape::Wavefront,
        Shape::Readers,
    ];

    pub(crate) fn name(self) -> &'static str {
        match self {
            Shape::Independent => "independent tasks of 18 sets",
            Shape::Chain => "a chain on one cell",
            Shape::Adders => "adders in one group",
            Shape::Tree => "a tree",
            Shape::Wavefront => "a wavefront",
            Shape::Readers => "readers of 64 cells behind a writer",
        }
    }

    /// The body, with `#` for a number that goes with its size.
    fn body(self) -> &'static str {
        match self {
            // Each task has a cell of its own.
            Shape::Independent => {
                r##"[["for","i",0,#,[["task",[["out",["a","i",1]]],[["for","j",0,18,[["set",["c","a","i"],["+",["c","a","i"],"j"]]]]]]]]]"##
            }
            Shape::Chain => {
                r##"[["for","i",0,#,[["task",[["inout",["a",0,1]]],[["add",["c","a",0],"i"]]]]]]"##
            }
            Shape::Adders => {
                r##"[["group",[["a",0,1]],[["for","i",0,#,[["task",[["red",["a",0,1]]],[["add",["c","a",0],"i"]]]]]]]]"##
            }
            Shape::Tree => "",
            // Each task of a square reads what the one above it and the one before it write.
            Shape::Wavefront => {
                r##"[["for","i",1,#,[["for","j",1,#,[["task",[["in",["a",["+",["*",["-","i",1],#],"j"],1]],["in",["a",["-",["+",["*","i",#],"j"],1],1]],["out",["a",["+",["*","i",#],"j"],1]]],[["set",["c","a",["+",["*","i",#],"j"]],["+",["c","a",["+",["*",["-","i",1],#],"j"]],["c","a",["-",["+",["*","i",#],"j"],1]]]]]]]]]]]"##
            }
            // Each task but the first has a cell of its own.
            Shape::Readers => {
                r##"[["task",[["out",["a",0,64]]],[["for","i",0,64,[["set",["c","a","i"],"i"]]]]],["for","i",64,#,[["task",[["in",["a",0,64]],["out",["a","i",1]]],[["set",["c","a","i"],["pick",["a",0,64],"i"]]]]]]]"##
            }
        }
    }

    /// The number in the body, and how many cells there are.
    fn numbers(self, size: Size) -> (u32, u32) {
        let row = size.side.saturating_add(1);
        let readers = size.tasks.saturating_add(63);
        match self {
            Shape::Independent => (size.tasks, size.tasks),
            Shape::Chain | Shape::Adders => (size.tasks, 1),
            Shape::Tree => (size.levels, size.tasks),
            Shape::Wavefront => (row, row.saturating_mul(row)),
            Shape::Readers => (readers, readers),
        }
    }

    /// The job of this shape and size over an array of 1s.
    pub(crate) fn job(self, alloc: Global, size: Size) -> Result<JobSpec, ProgramFault> {
        let (number, cells) = self.numbers(size);
        let body = match self {
            Shape::Tree => tree(alloc, number),
            _ => filled(alloc, self.body(), number),
        };
        job_over(alloc, vec![in alloc; 1u64; cells as usize]?, body?.as_str())
    }
}

/// The text with the number in the place of each `#`.
fn filled(alloc: Global, text: &str, number: u32) -> Result<String, AllocError> {
    let number = format!(in alloc; "{number}")?;
    let mut filled = String::new(alloc);
    for (at, part) in text.split('#').enumerate() {
        if at > 0 {
            filled.push_str(number.as_str())?;
        }
        filled.push_str(part)?;
    }
    Ok(filled)
}

/// Each task declares its part of the cells and creates two, of half of it each. Those of the last level
/// have one cell, and set it.
fn tree(alloc: Global, levels: u32) -> Result<String, AllocError> {
    let leaves = 1u32.wrapping_shl(levels);
    let mut parts = Vec::new(alloc);
    for at in 0..leaves {
        let leaf = format!(in alloc;
            r#"["task",[["out",["a",{at},1]]],[["set",["c","a",{at}],{at}]]]"#
        )?;
        parts.push(leaf)?;
    }
    for level in 1..levels {
        parts = joined(alloc, &parts, 1u32.wrapping_shl(level))?;
    }
    let [one, other] = parts.as_slice() else {
        return Err(AllocError);
    };
    format!(in alloc; "[{one},{other}]")
}

/// A task over so many cells for each two.
fn joined(alloc: Global, parts: &[String], cells: u32) -> Result<Vec<String>, AllocError> {
    let mut tasks = Vec::new(alloc);
    for (at, two) in parts.chunks(2).enumerate() {
        let [one, other] = two else {
            return Err(AllocError);
        };
        let start = (at as u64).wrapping_mul(u64::from(cells));
        let task = format!(in alloc;
            r#"["task",[["inout",["a",{start},{cells}]]],[{one},{other},["wait"]]]"#
        )?;
        tasks.push(task)?;
    }
    Ok(tasks)
}

/// 16 tasks that each declare all of 65,536 cells and set one.
const WIDE: &str =
    r#"[["for","i",0,16,[["task",[["inout",["a",0,65536]]],[["add",["c","a","i"],["c","a",0]]]]]]]"#;

pub(crate) fn wide(alloc: Global) -> Result<JobSpec, ProgramFault> {
    job_over(alloc, vec![in alloc; 1u64; 65536]?, WIDE)
}
