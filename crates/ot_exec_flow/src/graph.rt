//! Where values come from. Each value that a slot has had is a point, and an edge says which value went into which.
use std::alloc::{AllocError, Global};
use std::collections::{BTreeMap, BTreeSet};

/// How one value went into another.
#[derive(Clone, Copy, Debug, PartialEq, Eq)]
pub(crate) enum Going {
    /// It had a part in a number.
    Counted,
    /// It is that value.
    Is,
    /// It may be that value, which matters where that is read.
    MayBe,
    /// It was put where that is taken from.
    Held,
}

/// What is found of values.
#[derive(Clone, Copy, Debug, PartialEq, Eq)]
enum Mark {
    /// It is a place that another task got.
    Lent,
    /// It is a place that isn't the same each time.
    Moved,
    /// It comes from memory, or isn't known.
    Memory,
}

#[derive(Clone, Copy)]
struct Edge {
    from: u32,
    to: u32,
    going: Going,
    /// The next edge from the same value, and to the same one.
    next_from: u32,
    next_to: u32,
}

#[derive(Clone, Copy)]
struct Point {
    /// The task in which it is.
    task: u32,
    first_from: u32,
    first_to: u32,
    /// Of places that may be the same: the one that stands for all.
    chief: u32,
    is_read: bool,
    is_lent: bool,
    is_moved: bool,
    is_memory: bool,
    /// Of a chief: what lies there may be changed by another task, or from where nobody looks.
    is_outer: bool,
    /// Of a chief: it is the place of a variable that lives as long as the program, which is memory where anything is stored there.
    is_global: bool,
}

/// No edge, no form, no function.
pub(crate) const NONE: u32 = u32::MAX;

/// A value that is in no task more than in another.
pub(crate) const ANY: u32 = u32::MAX;

/// Values that are the same everywhere: numbers that are written in the text, what isn't known, the places of what lives as long as the
/// program, what is loaded from these.
pub(crate) const PLAIN: u32 = 0;

pub(crate) const UNKNOWN: u32 = 1;

pub(crate) const OUTER: u32 = 2;

pub(crate) const MEMORY: u32 = 3;

const LAST: u32 = MEMORY;

/// How many edges and values there are at most.
const MOST: usize = 1 << 22;

/// A place, and the value that is loaded from there. Where it is a variable of one cell that lives as long as the program, the form at which that begins.
#[derive(Clone, Copy)]
pub(crate) struct Load {
    pub place: u32,
    pub value: u32,
    pub variable: u32,
}

/// A place, and the value that is stored there.
#[derive(Clone, Copy)]
pub(crate) struct Touch {
    pub place: u32,
    pub value: u32,
}

/// Where values are loaded from and stored to, what variables that live as long as the program begin with, of which values the turns of loops and lengths
/// are made, and the places of these variables.
#[derive(Clone, Copy)]
pub(crate) struct Touches<'a> {
    pub loads: &'a [Load],
    pub stores: &'a [Touch],
    pub starts: &'a [Touch],
    pub bounds: &'a [u32],
    pub globals: &'a BTreeMap<u32, u32>,
}

#[derive(Drop)]
pub(crate) struct Graph {
    points: Vec<Point>,
    edges: Vec<Edge>,
    /// It would be too much.
    pub is_full: bool,
}

/// Its points and edges.
impl Graph {
    pub(crate) fn new(alloc: Global) -> Result<Graph, AllocError> {
        let mut graph = Graph {
            points: Vec::new(alloc),
            edges: Vec::new(alloc),
            is_full: false,
        };
        for _ in 0..=LAST {
            graph.value(ANY)?;
        }
        graph.marks(UNKNOWN, Mark::Memory);
        graph.marks(MEMORY, Mark::Memory);
        graph.marks(UNKNOWN, Mark::Moved);
        graph.marks(MEMORY, Mark::Moved);
        graph.leaks(OUTER);
        graph.leaks(MEMORY);
        Ok(graph)
    }

    /// A new value in a task.
    pub(crate) fn value(&mut self, task: u32) -> Result<u32, AllocError> {
        if self.points.len() >= MOST {
            self.is_full = true;
            return Ok(UNKNOWN);
        }
        let number = u32::try_from(self.points.len()).unwrap_or(UNKNOWN);
        self.points.push(Point {
            task,
            first_from: NONE,
            first_to: NONE,
            chief: number,
            is_read: false,
            is_lent: false,
            is_moved: false,
            is_memory: false,
            is_outer: false,
            is_global: false,
        })?;
        Ok(number)
    }

    /// One value goes into another. A place that another task gets so is lent.
    pub(crate) fn link(&mut self, from: u32, to: u32, going: Going) -> Result<(), AllocError> {
        if from == to || from == PLAIN || to <= LAST {
            return Ok(());
        }
        if self.edges.len() >= MOST {
            self.is_full = true;
            return Ok(());
        }
        if matches!(going, Going::Is | Going::MayBe) && self.crosses(from, to) {
            self.marks(to, Mark::Lent);
        }
        let number = u32::try_from(self.edges.len()).unwrap_or(NONE);
        let mut edge = Edge {
            from,
            to,
            going,
            next_from: NONE,
            next_to: NONE,
        };
        if let Some(point) = self.points.get_mut(from as usize) {
            edge.next_from = point.first_from;
            point.first_from = number;
        }
        if let Some(point) = self.points.get_mut(to as usize) {
            edge.next_to = point.first_to;
            point.first_to = number;
        }
        self.edges.push(edge)?;
        Ok(())
    }

    pub(crate) fn task_of(&self, value: u32) -> u32 {
        match self.points.get(value as usize) {
            Some(point) => point.task,
            None => ANY,
        }
    }

    fn crosses(&self, from: u32, to: u32) -> bool {
        let one = self.task_of(from);
        let other = self.task_of(to);
        one != other && one != ANY && other != ANY
    }

    /// Something reads it: whether nothing did before.
    pub(crate) fn reads(&mut self, value: u32) -> bool {
        match self.points.get_mut(value as usize) {
            Some(point) => {
                let is_new = !point.is_read;
                point.is_read = true;
                is_new
            }
            None => false,
        }
    }

    fn is_read(&self, value: u32) -> bool {
        match self.points.get(value as usize) {
            Some(point) => point.is_read,
            None => false,
        }
    }

    pub(crate) fn is_memory(&self, value: u32) -> bool {
        match self.points.get(value as usize) {
            Some(point) => point.is_memory,
            None => true,
        }
    }

    fn is_lent(&self, value: u32) -> bool {
        match self.points.get(value as usize) {
            Some(point) => point.is_lent,
            None => true,
        }
    }

    fn is_moved(&self, value: u32) -> bool {
        match self.points.get(value as usize) {
            Some(point) => point.is_moved,
            None => true,
        }
    }

    /// It isn't the same place each time.
    pub(crate) fn moves(&mut self, value: u32) {
        self.marks(value, Mark::Moved);
    }

    /// Marks it: whether it wasn't marked so before.
    fn marks(&mut self, value: u32, mark: Mark) -> bool {
        match self.points.get_mut(value as usize) {
            Some(point) => match mark {
                Mark::Lent => {
                    let is_new = !point.is_lent;
                    point.is_lent = true;
                    is_new
                }
                Mark::Moved => {
                    let is_new = !point.is_moved;
                    point.is_moved = true;
                    is_new
                }
                Mark::Memory => {
                    let is_new = !point.is_memory;
                    point.is_memory = true;
                    is_new
                }
            },
            None => false,
        }
    }
}

/// Places that may be the same.
impl Graph {
    fn chief(&self, value: u32) -> u32 {
        match self.points.get(value as usize) {
            Some(point) => point.chief,
            None => value,
        }
    }

    /// The one that stands for all places that may be the same. Those on the way there come nearer to it.
    pub(crate) fn chief_of(&mut self, value: u32) -> u32 {
        let mut at = value;
        for _ in 0..self.points.len() {
            let above = self.chief(at);
            if above == at {
                return at;
            }
            let higher = self.chief(above);
            if let Some(point) = self.points.get_mut(at as usize) {
                point.chief = higher;
            }
            at = higher;
        }
        at
    }

    fn unites(&mut self, one: u32, other: u32) {
        let below = self.chief_of(one);
        let above = self.chief_of(other);
        let is_outer = self.is_outer(below);
        if let Some(point) = self.points.get_mut(below as usize) {
            point.chief = above;
        }
        if is_outer {
            self.leaks(above);
        }
    }

    fn is_outer(&self, chief: u32) -> bool {
        match self.points.get(chief as usize) {
            Some(point) => point.is_outer,
            None => true,
        }
    }

    /// It is the place of a variable that lives as long as the program.
    fn lives_on(&mut self, value: u32) {
        let chief = self.chief_of(value);
        if let Some(point) = self.points.get_mut(chief as usize) {
            point.is_global = true;
        }
    }

    fn is_global(&mut self, value: u32) -> bool {
        let chief = self.chief_of(value);
        match self.points.get(chief as usize) {
            Some(point) => point.is_global,
            None => true,
        }
    }

    /// What lies at this place may be changed from elsewhere.
    pub(crate) fn leaks(&mut self, value: u32) {
        let chief = self.chief_of(value);
        if let Some(point) = self.points.get_mut(chief as usize) {
            point.is_outer = true;
        }
    }
}

/// What is found when all edges are there.
impl Graph {
    /// Which values come from memory, where these places are loaded from and stored to: those of which indexes are made. What is given does too, where
    /// branches are made of it.
    pub(crate) fn settle(
        &mut self,
        alloc: Global,
        touches: &Touches<'_>,
    ) -> Result<Vec<u32>, AllocError> {
        let loads = touches.loads;
        let stores = touches.stores;
        self.spread_reads(alloc)?;
        self.meet();
        for place in touches.globals.values() {
            self.lives_on(*place);
        }
        self.spread(alloc, Mark::Lent)?;
        for load in loads {
            self.leaks(load.value);
        }
        for store in stores {
            if store.value > UNKNOWN {
                self.leaks(store.value);
            }
            if self.is_lent(store.place) || self.is_global(store.place) {
                self.leaks(store.place);
            }
        }
        for start in touches.starts {
            if start.value > UNKNOWN {
                self.leaks(start.value);
            }
        }
        self.fill(alloc, touches)?;
        self.bounds(alloc, touches)?;
        let fixed = self.fixed(alloc, touches)?;
        self.spread(alloc, Mark::Memory)?;
        Ok(fixed)
    }

    /// What is loaded from a place that is the same each time, by no index and through no pointer in memory, and comes from memory: such as a member of a struct. It is as the
    /// run has it where an index is made of it.
    fn fixed(&mut self, alloc: Global, touches: &Touches<'_>) -> Result<Vec<u32>, AllocError> {
        self.spread(alloc, Mark::Moved)?;
        let mut fixed = Vec::new(alloc);
        for load in touches.loads {
            if self.is_memory(load.value) && !self.is_moved(load.place) {
                self.is_as_run(load.value);
                fixed.push(load.value)?;
            }
        }
        Ok(fixed)
    }

    /// These come from memory.
    pub(crate) fn comes_from_memory(
        &mut self,
        alloc: Global,
        values: &[u32],
    ) -> Result<(), AllocError> {
        for value in values {
            self.marks(*value, Mark::Memory);
        }
        self.spread(alloc, Mark::Memory)
    }

    /// What is loaded for the turns of loops and for lengths is as the run has it, and so is all else that is loaded from a variable of one cell of which they
    /// are made.
    fn bounds(&mut self, alloc: Global, touches: &Touches<'_>) -> Result<(), AllocError> {
        let parts = self.parts_of(alloc, touches.bounds)?;
        let mut variables = BTreeSet::new(alloc);
        for load in touches.loads {
            if parts.get(load.value as usize).copied().unwrap_or(false) {
                self.is_as_run(load.value);
                if load.variable != NONE {
                    variables.insert(load.variable)?;
                }
            }
        }
        for load in touches.loads {
            if variables.contains(&load.variable) {
                self.is_as_run(load.value);
            }
        }
        Ok(())
    }

    fn is_as_run(&mut self, value: u32) {
        if let Some(point) = self.points.get_mut(value as usize) {
            point.is_memory = false;
        }
    }

    /// By value, whether one of these was made of it.
    pub(crate) fn parts_of(&self, alloc: Global, values: &[u32]) -> Result<Vec<bool>, AllocError> {
        let mut parts = vec![in alloc; false; self.points.len()]?;
        let mut work = Vec::new(alloc);
        for value in values {
            if is_new(&mut parts, *value) {
                work.push(*value)?;
            }
        }
        for _ in 0..self.points.len() {
            let Some(at) = work.pop() else {
                return Ok(parts);
            };
            let mut next = match self.points.get(at as usize) {
                Some(point) => point.first_to,
                None => NONE,
            };
            for _ in 0..self.edges.len() {
                let Some(edge) = self.edges.get(next as usize).copied() else {
                    break;
                };
                next = edge.next_to;
                if is_new(&mut parts, edge.from) {
                    work.push(edge.from)?;
                }
            }
        }
        Ok(parts)
    }

    /// What may be a value that is read is read.
    fn spread_reads(&mut self, alloc: Global) -> Result<(), AllocError> {
        let mut work = Vec::new(alloc);
        for (number, point) in self.points.iter().enumerate() {
            if point.is_read {
                work.push(u32::try_from(number).unwrap_or(PLAIN))?;
            }
        }
        for _ in 0..self.points.len() {
            let Some(at) = work.pop() else {
                return Ok(());
            };
            let mut next = match self.points.get(at as usize) {
                Some(point) => point.first_to,
                None => NONE,
            };
            for _ in 0..self.edges.len() {
                let Some(edge) = self.edges.get(next as usize).copied() else {
                    break;
                };
                next = edge.next_to;
                if edge.going == Going::MayBe && self.reads(edge.from) {
                    work.push(edge.from)?;
                }
            }
        }
        Ok(())
    }

    /// Whether a place goes along an edge.
    fn carries(&self, edge: Edge) -> bool {
        match edge.going {
            Going::Counted => false,
            Going::Is | Going::Held => true,
            Going::MayBe => self.is_read(edge.to),
        }
    }

    /// Places that go into one another may be the same.
    fn meet(&mut self) {
        for number in 0..self.edges.len() {
            if let Some(edge) = self.edges.get(number).copied() {
                if edge.from > UNKNOWN && self.carries(edge) {
                    self.unites(edge.from, edge.to);
                }
            }
        }
    }

    /// What goes on from values that are marked is marked.
    fn spread(&mut self, alloc: Global, mark: Mark) -> Result<(), AllocError> {
        let mut work = Vec::new(alloc);
        for (number, point) in self.points.iter().enumerate() {
            let is_marked = match mark {
                Mark::Lent => point.is_lent,
                Mark::Moved => point.is_moved,
                Mark::Memory => point.is_memory,
            };
            if is_marked {
                work.push(u32::try_from(number).unwrap_or(PLAIN))?;
            }
        }
        for _ in 0..self.points.len() {
            let Some(at) = work.pop() else {
                return Ok(());
            };
            let mut next = match self.points.get(at as usize) {
                Some(point) => point.first_from,
                None => NONE,
            };
            for _ in 0..self.edges.len() {
                let Some(edge) = self.edges.get(next as usize).copied() else {
                    break;
                };
                next = edge.next_from;
                let goes = mark == Mark::Memory || self.carries(edge);
                if goes && self.marks(edge.to, mark) {
                    work.push(edge.to)?;
                }
            }
        }
        Ok(())
    }

    /// Of places that only their own task changes, what is stored there is what is loaded.
    fn fill(&mut self, alloc: Global, touches: &Touches<'_>) -> Result<(), AllocError> {
        let mut contents = vec![in alloc; NONE; self.points.len()]?;
        for store in touches.starts.iter().chain(touches.stores) {
            if let Some(content) = self.content(&mut contents, store.place)? {
                self.link(store.value, content, Going::Held)?;
            }
        }
        for load in touches.loads {
            match self.content(&mut contents, load.place)? {
                Some(content) => self.link(content, load.value, Going::Held)?,
                None => {
                    self.marks(load.value, Mark::Memory);
                    self.marks(load.value, Mark::Moved);
                }
            }
        }
        Ok(())
    }

    /// The value that stands for all that lies at places which may be this one; none where it is memory.
    fn content(&mut self, contents: &mut Vec<u32>, place: u32) -> Result<Option<u32>, AllocError> {
        let chief = self.chief_of(place);
        if chief <= UNKNOWN || self.is_outer(chief) {
            return Ok(None);
        }
        match contents.get(chief as usize) {
            Some(content) if *content != NONE => return Ok(Some(*content)),
            _ => {}
        }
        let content = self.value(ANY)?;
        if let Some(place) = contents.get_mut(chief as usize) {
            *place = content;
        }
        Ok(Some(content))
    }
}

/// Sets it: whether it wasn't set before.
fn is_new(flags: &mut [bool], at: u32) -> bool {
    match flags.get_mut(at as usize) {
        Some(flag) => {
            let is_new = !*flag;
            *flag = true;
            is_new
        }
        None => false,
    }
}
