//! What clients do on a pool, and what each of them is told.
use super::door::Door;
use super::players::{By, ask, session};
use ot_pool::{Pool, close};
use std::alloc::{AllocError, Global};
use std::sync::Wait;
use std::sync::ledger::Ledger;
use std::thread;
use std::thread::Threads;

/// What clients do, each in a thread of its own.
#[derive(Drop)]
pub(crate) enum Scene {
    /// The first two tenants ask side by side.
    Beside(By),
    /// A piece of the first tenant is held at the door until the second, which asks later, is answered.
    Held(By),
    /// A piece of the first tenant is held at the door until another client of it is answered.
    Twice,
    /// The first piece of a job of this body is held at the door until all who find nothing to do sleep.
    Asleep(&'static str),
    /// The pool is closed while so many pieces of the first tenant are out. Then both ask once more.
    Closing(By, u64),
    /// A tenant asks that the pool doesn't have.
    Unknown,
    /// A session asks of a tenant that the pool doesn't have.
    UnknownSession,
}

/// Its second task reads what the first writes. It takes six pieces and leaves 7, 8, 3.
pub(crate) const READ_AFTER_WRITE: &str =
    r#"[["task",[["out",["a",0,1]]],[["set",["c","a",0],7]]],["task",[["in",["a",0,1]],["out",["a",1,1]]],[["set",["c","a",1],["+",["c","a",0],1]]]],["wait"]]"#;

/// Two tasks in a task. It takes eight pieces and leaves 4, 5, 9.
pub(crate) const NESTED: &str =
    r#"[["task",[["inout",["a",0,3]]],[["task",[["out",["a",0,1]]],[["set",["c","a",0],4]]],["task",[["out",["a",1,1]]],[["set",["c","a",1],5]]],["wait"],["set",["c","a",2],["+",["c","a",0],["c","a",1]]]]]]"#;

/// The third request is refused, the fourth is to run, and a fifth stands behind it.
const LINES: &str = r#"["new","a",3]
["put","a",0,[1,2,3]]
["run",["program",[["b",0,3]],[]]]
["run",["program",[["a",0,3]],[["set",["c","a",0],4]]]]
["get","a",0,3]
"#;

/// A number that no pool of a test has.
pub(crate) const NO_TENANT: u32 = 64;

/// What the job of a tenant is.
fn body_of(tenant: u32) -> &'static str {
    if tenant == 0 {
        READ_AFTER_WRITE
    } else {
        NESTED
    }
}

/// Asks once a piece of the first tenant stands at the door, and opens it when the answer has come.
fn ask_behind<L: Ledger, R: Wait>(
    rt: &R,
    alloc: Global,
    pool: &Pool<L>,
    door: &Door,
    by: By,
    tenant: u32,
) -> Result<String, AllocError> {
    let came = door.wait_for(1);
    let told = ask(rt, alloc, pool, tenant, by, body_of(tenant));
    door.set_open();
    if came {
        told
    } else {
        String::from_str(alloc, "no piece of the first tenant came")
    }
}

/// Asks, and opens the door when the answer has come.
fn ask_and_open<L: Ledger, R: Wait>(
    rt: &R,
    alloc: Global,
    pool: &Pool<L>,
    door: &Door,
    body: &str,
) -> Result<String, AllocError> {
    let told = ask(rt, alloc, pool, 0, By::Client, body);
    door.set_open();
    told
}

/// Closes the pool once so many pieces of the first tenant have come to the door, and opens it then.
fn close_behind<L: Ledger, R: Wait>(
    rt: &R,
    alloc: Global,
    pool: &Pool<L>,
    door: &Door,
    pieces: u64,
) -> Result<String, AllocError> {
    let came = door.wait_for(pieces);
    close(rt, pool);
    door.set_open();
    let one = ask(rt, alloc, pool, 0, By::Client, READ_AFTER_WRITE)?;
    let other = ask(rt, alloc, pool, 1, By::Client, NESTED)?;
    format!(in alloc; "{came} {one} {other}")
}

/// What clients are told, one after the other, with a line feed behind each.
pub(crate) fn in_lines(
    alloc: Global,
    all_told: Vec<Result<String, AllocError>>,
) -> Result<String, AllocError> {
    let mut lines = String::new(alloc);
    for told in all_told {
        lines.push_str(told?.as_str())?;
        lines.push('\n')?;
    }
    Ok(lines)
}

impl Scene {
    fn clients(&self) -> usize {
        match self {
            Scene::Beside(_)
            | Scene::Held(_)
            | Scene::Twice
            | Scene::Asleep(_)
            | Scene::Closing(_, _) => 2,
            Scene::Unknown | Scene::UnknownSession => 1,
        }
    }

    /// What the second client does, and is told.
    fn second<L: Ledger, R: Wait>(
        &self,
        rt: &R,
        alloc: Global,
        pool: &Pool<L>,
        door: &Door,
    ) -> Result<String, AllocError> {
        match self {
            Scene::Held(by) => ask_behind(rt, alloc, pool, door, *by, 1),
            Scene::Twice => ask_behind(rt, alloc, pool, door, By::Client, 0),
            Scene::Asleep(_) => format!(in alloc; "{}", door.open_late()),
            Scene::Closing(_, pieces) => close_behind(rt, alloc, pool, door, *pieces),
            _ => ask(rt, alloc, pool, 1, self.by(), NESTED),
        }
    }

    fn by(&self) -> By {
        match self {
            Scene::Beside(by) | Scene::Held(by) | Scene::Closing(by, _) => *by,
            _ => By::Client,
        }
    }

    /// What a client does, and is told.
    fn part<L: Ledger, R: Wait>(
        &self,
        rt: &R,
        alloc: Global,
        pool: &Pool<L>,
        door: &Door,
        client: u32,
    ) -> Result<String, AllocError> {
        match self {
            Scene::Unknown => ask(rt, alloc, pool, NO_TENANT, By::Client, READ_AFTER_WRITE),
            Scene::UnknownSession => session(rt, alloc, pool, NO_TENANT, LINES),
            Scene::Asleep(body) if client == 0 => ask_and_open(rt, alloc, pool, door, body),
            _ if client == 0 => ask(rt, alloc, pool, 0, self.by(), READ_AFTER_WRITE),
            _ => self.second(rt, alloc, pool, door),
        }
    }

    /// What the clients are told, one after the other, with a line feed behind each.
    pub(crate) fn played<L: Ledger + Send + Sync, R: Threads + Wait + Sync>(
        &self,
        rt: &R,
        alloc: Global,
        pool: &Pool<L>,
        door: &Door,
    ) -> Result<String, AllocError> {
        in_lines(alloc, side_by_side(rt, alloc, pool, self, door)?)
    }
}

/// Where scenes are played. A client's thread borrows a pool as such a place: so whether it may is asked of the
/// pool alone, and not of all that it is made of.
trait Stage {
    /// What a client of a scene is told.
    fn part<R: Wait>(
        &self,
        rt: &R,
        alloc: Global,
        scene: &Scene,
        door: &Door,
        client: u32,
    ) -> Result<String, AllocError>;
}

impl<L: Ledger> Stage for Pool<L> {
    fn part<R: Wait>(
        &self,
        rt: &R,
        alloc: Global,
        scene: &Scene,
        door: &Door,
        client: u32,
    ) -> Result<String, AllocError> {
        scene.part(rt, alloc, self, door, client)
    }
}

/// What each client of a scene is told.
fn side_by_side<S: Stage + Sync, R: Threads + Wait + Sync>(
    rt: &R,
    alloc: Global,
    stage: &S,
    scene: &Scene,
    door: &Door,
) -> Result<Vec<Result<String, AllocError>>, AllocError> {
    thread::map_indices(
        rt,
        alloc,
        scene.clients(),
        &|client: usize| {
            let client = u32::try_from(client).unwrap_or(NO_TENANT);
            stage.part(rt, alloc, scene, door, client)
        },
    )
}
