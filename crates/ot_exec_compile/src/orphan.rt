//! Orphaned constructs (OpenMP API 5.2, section 1.2.2): those of a function that bind to the region in which it is called. Where the text of a team's
//! threads calls such a function by a statement of its own, its body is made there once more; where no region is, the thread is alone.
use crate::fault::{Fault, Why};
use crate::maker::{ACTIVE, Around, Maker, Returns, below};
use crate::team::Team;
use crate::value::DEEPEST;
use ot_exec_code::Form;
use ot_exec_layout::Sort;
use ot_exec_tree::{Directive, Expr, Function, Stmt, Unit};
use std::alloc::Global;

/// How long the chain of calls is, at most, by which a function is found that has such a construct.
const CHAIN: u32 = 64;

/// How many bodies are made where they are called, at most.
const MOST: u32 = 4_096;

/// A statement that calls a function of the text.
#[derive(Clone, Copy)]
pub(crate) struct BoundCall<'b> {
    pub(crate) at: u32,
    function: u32,
    arguments: &'b [Expr],
}

/// The call that an expression is. Its value may be cast, to `void` say.
fn call_of(value: &Expr) -> Option<BoundCall<'_>> {
    match value {
        Expr::Cast(_, _, one) => called(one),
        one => called(one),
    }
}

fn called(value: &Expr) -> Option<BoundCall<'_>> {
    let Expr::Call(at, function, arguments) = value else {
        return None;
    };
    match &**function {
        Expr::Function(_, number) => Some(BoundCall {
            at: *at,
            function: *number,
            arguments: arguments.as_slice(),
        }),
        _ => None,
    }
}

/// Whether a construct binds to the team that is there.
fn binds(directives: &[Directive]) -> bool {
    matches!(
        directives.first(),
        Some(
            Directive::For
                | Directive::Sections
                | Directive::Single
                | Directive::Masked
                | Directive::Barrier
        )
    )
}

/// A search through all functions.
#[derive(Drop)]
struct Search {
    /// By function: whether such a construct stands in it.
    binds: Vec<bool>,
    /// Who calls whom by a statement.
    calls: Vec<(u32, u32)>,
    function: u32,
}

/// By function: whether it has a construct that binds to the region in which it is called, or calls such a function.
pub(crate) fn binding_functions(alloc: Global, unit: &Unit) -> Result<Vec<bool>, Fault> {
    let mut search = Search {
        binds: vec![in alloc; false; unit.functions.len()]?,
        calls: Vec::new(alloc),
        function: 0,
    };
    for function in unit.functions.iter() {
        if let Some(body) = &function.body {
            search.statement(DEEPEST, body)?;
        }
        search.function = search.function.saturating_add(1);
    }
    for _call in 0..CHAIN {
        if !search.spreads() {
            break;
        }
    }
    Ok(search.binds)
}

impl Search {
    fn marks(&mut self, function: u32) {
        if let Some(mark) = self.binds.get_mut(function as usize) {
            *mark = true;
        }
    }

    fn is_marked(&self, function: u32) -> bool {
        self.binds.get(function as usize).copied().unwrap_or(false)
    }

    /// From each function to those that call it. Whether there was one more.
    fn spreads(&mut self) -> bool {
        let mut spread = false;
        for place in 0..self.calls.len() {
            if let Some((caller, callee)) = self.calls.get(place).copied()
                && self.is_marked(callee)
                && !self.is_marked(caller)
            {
                self.marks(caller);
                spread = true;
            }
        }
        spread
    }

    #[cycle(search)]
    fn statement(&mut self, depth: u32, statement: &Stmt) -> Result<(), Fault> {
        let depth = below(depth, 0)?;
        match statement {
            Stmt::Does(value) => {
                if let Some(call) = call_of(value) {
                    self.calls.push((self.function, call.function))?;
                }
                Ok(())
            }
            Stmt::Construct(_, directives, _, _, _) => {
                if binds(directives.as_slice()) {
                    self.marks(self.function);
                }
                Ok(())
            }
            Stmt::Block(_, list, _) => self.statements(depth, list.as_slice()),
            Stmt::If(_, _, one, other) => {
                self.statement(depth, one)?;
                match other {
                    Some(other) => self.statement(depth, other),
                    None => Ok(()),
                }
            }
            Stmt::While(_, _, body) | Stmt::Do(_, body, _) => self.statement(depth, body),
            Stmt::For(_, _, _, _, body) => self.statement(depth, body),
            Stmt::Switch(_, _, body) => self.statement(depth, body),
            _ => Ok(()),
        }
    }

    #[cycle(search)]
    fn statements(&mut self, depth: u32, list: &[Stmt]) -> Result<(), Fault> {
        let less = below(depth, 0)?;
        for one in list {
            self.statement(less, one)?;
        }
        Ok(())
    }
}

/// What goes on behind a function's text that is made where it is called.
#[derive(Clone, Copy)]
struct Outside {
    next: u32,
    floor: usize,
    returns: Returns,
    around: Around,
    gives: Sort,
    text: u32,
    context: u32,
    behind: usize,
}

impl<'a> Maker<'a> {
    /// The call that a statement is, where the text of a team's threads calls a function whose constructs bind to their region. One that is being
    /// made is called as any.
    pub(crate) fn bound_call<'b>(&self, value: &'b Expr) -> Option<BoundCall<'b>> {
        let Team::Pieces(_) = self.team else {
            return None;
        };
        let call = call_of(value)?;
        let binds = self
            .binds
            .get(call.function as usize)
            .copied()
            .unwrap_or(false);
        if !binds || self.making.iter().any(|one| *one == call.function) {
            return None;
        }
        Some(call)
    }

    /// The run ends here where several threads execute a region: they don't come together in a function that is called.
    pub(crate) fn is_by_caller(&mut self, at: u32) -> Result<(), Fault> {
        let Team::Called = self.team else {
            return Ok(());
        };
        let mark = self.frame.next;
        let active = self.flag(at, ACTIVE)?;
        let out = self.repeat(at, active)?;
        let unknown = self.unknown()?;
        let form = self.repeat(at, unknown)?;
        self.orphans.push(form)?;
        self.lands(form)?;
        self.lands(out)?;
        self.frame.next = mark;
        Ok(())
    }

    /// The body of a function that is called.
    #[cycle(statement)]
    pub(crate) fn made_here(&mut self, depth: u32, call: BoundCall<'_>) -> Result<(), Fault> {
        let depth = below(depth, call.at)?;
        let unit = self.unit;
        let Some(function) = unit.functions.get(call.function as usize) else {
            return Err(Fault::Refused(call.at, Why::NotDeclared));
        };
        let Some(body) = &function.body else {
            return Err(Fault::Refused(call.at, Why::NotDeclared));
        };
        let outside = self.begins_here(call, function)?;
        self.statement(depth, body)?;
        self.ends_here(call.at, outside)
    }

    fn begins_here(&mut self, call: BoundCall<'_>, function: &Function) -> Result<Outside, Fault> {
        if self.bodies >= MOST {
            return Err(Fault::Refused(call.at, Why::Length));
        }
        self.bodies = self.bodies.saturating_add(1);
        let next = self.frame.next;
        let first = self.argument_slots(call.at, call.function, call.arguments)?;
        let context = self.fresh()?;
        self.emit(Form::Context(context))?;
        let outside = Outside {
            next,
            floor: self.frame.floor,
            returns: self.frame.returns,
            around: self.around,
            gives: self.gives,
            text: self.labels.begins(),
            context,
            behind: self.behind.len(),
        };
        self.making.push(call.function)?;
        self.around = Around::NOTHING;
        self.gives = Sort::of(self.unit, function.kind)
            .given(self.unit)
            .unwrap_or(Sort::INT);
        self.frame.returns = Returns::Behind;
        self.frame.floor = self.live.len();
        self.begins_parameters(function, first)?;
        Ok(outside)
    }

    fn ends_here(&mut self, at: u32, outside: Outside) -> Result<(), Fault> {
        self.labels.ends(outside.text)?;
        self.end_since(at, self.frame.floor)?;
        for place in outside.behind..self.behind.len() {
            if let Some(jump) = self.behind.get(place).copied() {
                self.lands(jump)?;
            }
        }
        self.behind.truncate(outside.behind);
        self.emit(Form::Within(outside.context))?;
        let _ = self.making.pop();
        self.frame.returns = outside.returns;
        self.frame.floor = outside.floor;
        self.frame.next = outside.next;
        self.around = outside.around;
        self.gives = outside.gives;
        Ok(())
    }
}
