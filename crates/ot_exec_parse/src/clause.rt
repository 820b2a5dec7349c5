//! Clauses (OpenMP API 5.2).
use crate::directive::directive_of;
use crate::fault::{ParseError, Why};
use crate::parser::{INT, MAX_DEPTH, Parser};
use ot_exec_tokens::{Kind, Mark, word};
use ot_exec_tree::{
    Action, Clause, Default, Dependence, Directive, Expr, Iterator, Reducing, Role, Storage,
};

/// The clause of a name that has no list.
fn alone(name: u32) -> Option<Role> {
    match name {
        word::UNTIED => Some(Role::Untied),
        word::MERGEABLE => Some(Role::Mergeable),
        word::NOWAIT => Some(Role::Nowait),
        word::NOGROUP => Some(Role::Nogroup),
        word::READ => Some(Role::Atomic(Action::Read)),
        word::WRITE => Some(Role::Atomic(Action::Write)),
        word::UPDATE => Some(Role::Atomic(Action::Update)),
        word::CAPTURE => Some(Role::Atomic(Action::Capture)),
        word::SEQ_CST
        | word::ACQ_REL
        | word::RELEASE
        | word::ACQUIRE
        | word::RELAXED
        | word::THREADS
        | word::SIMD
        | word::INBRANCH => Some(Role::Other),
        _ => None,
    }
}

/// Whether a clause says nothing of order or of data.
fn is_other(name: u32) -> bool {
    matches!(
        name,
        word::HINT
            | word::ALLOCATE
            | word::PROC_BIND
            | word::SCHEDULE
            | word::AFFINITY
            | word::SAFELEN
            | word::SIMDLEN
            | word::ALIGNED
            | word::NONTEMPORAL
            | word::FILTER
            | word::BIND
            | word::ORDER
            | word::DIST_SCHEDULE
            | word::THREAD_LIMIT
            | word::COPYIN
    )
}

/// The clause of a name that has one value.
fn valued(name: u32) -> Option<Role> {
    match name {
        word::FINAL => Some(Role::Final),
        word::PRIORITY => Some(Role::Priority),
        word::NUM_THREADS => Some(Role::NumThreads),
        word::GRAINSIZE => Some(Role::Grainsize),
        word::NUM_TASKS => Some(Role::NumTasks),
        word::COLLAPSE => Some(Role::Collapse),
        _ => None,
    }
}

/// The clause of a name that has a list of variables.
fn listed(name: u32) -> Option<Role> {
    match name {
        word::PRIVATE => Some(Role::Private),
        word::FIRSTPRIVATE => Some(Role::Firstprivate),
        word::LASTPRIVATE => Some(Role::Lastprivate),
        word::SHARED => Some(Role::Shared),
        _ => None,
    }
}

fn default_of(name: u32) -> Option<Default> {
    match name {
        word::SHARED => Some(Default::Shared),
        word::NONE => Some(Default::None),
        word::PRIVATE => Some(Default::Private),
        word::FIRSTPRIVATE => Some(Default::Firstprivate),
        _ => None,
    }
}

fn dependence_of(name: u32) -> Option<Dependence> {
    match name {
        word::IN => Some(Dependence::In),
        word::OUT => Some(Dependence::Out),
        word::INOUT => Some(Dependence::Inout),
        word::MUTEXINOUTSET => Some(Dependence::Mutexinoutset),
        word::INOUTSET => Some(Dependence::Inoutset),
        _ => None,
    }
}

fn reducing_of(kind: Kind) -> Option<Reducing> {
    match kind {
        Kind::Mark(Mark::Plus | Mark::Minus) => Some(Reducing::Plus),
        Kind::Mark(Mark::Star) => Some(Reducing::Times),
        Kind::Mark(Mark::And) => Some(Reducing::And),
        Kind::Mark(Mark::Or) => Some(Reducing::Or),
        Kind::Mark(Mark::Xor) => Some(Reducing::Xor),
        Kind::Mark(Mark::Both) => Some(Reducing::Both),
        Kind::Mark(Mark::Either) => Some(Reducing::Either),
        Kind::Name(word::MIN) => Some(Reducing::Min),
        Kind::Name(word::MAX) => Some(Reducing::Max),
        _ => None,
    }
}

impl Parser {
    /// The clauses up to the line's end.
    pub(crate) fn clauses(&mut self) -> Result<Vec<Clause>, ParseError> {
        let mut found = Vec::new(self.alloc);
        for _ in 0..self.tokens.len() {
            let _ = self.take(Mark::Comma);
            if self.kind() == Kind::PragmaEnd {
                return Ok(found);
            }
            let clause = self.clause()?;
            found.push(clause)?;
        }
        Err(self.fault(Why::Clause))
    }

    fn clause(&mut self) -> Result<Clause, ParseError> {
        let at = self.here();
        let Kind::Name(name) = self.kind() else {
            return Err(self.fault(Why::Clause));
        };
        if is_other(name) {
            self.step();
            self.skip_brackets();
            return Ok(self.plain(at, Role::Other));
        }
        if let Some(role) = alone(name) {
            self.step();
            return Ok(self.plain(at, role));
        }
        self.bracketed_clause(at, name)
    }

    fn plain(&self, at: u32, role: Role) -> Clause {
        self.made(at, role, Vec::new(self.alloc))
    }

    fn made(&self, at: u32, role: Role, items: Vec<Expr>) -> Clause {
        Clause {
            at,
            role,
            iterators: Vec::new(self.alloc),
            items,
        }
    }

    /// A clause with a list in brackets.
    fn bracketed_clause(&mut self, at: u32, name: u32) -> Result<Clause, ParseError> {
        if let Some(role) = valued(name) {
            self.open()?;
            return self.value_clause(at, role);
        }
        if let Some(role) = listed(name) {
            self.open()?;
            return self.item_clause(at, role);
        }
        match name {
            word::IF => {
                self.open()?;
                let only = self.directive_before_colon();
                self.value_clause(at, Role::If(only))
            }
            word::DEFAULT => {
                self.open()?;
                self.default_clause(at)
            }
            word::REDUCTION | word::IN_REDUCTION | word::TASK_REDUCTION => {
                self.open()?;
                let by = self.reducing()?;
                let role = match name {
                    word::IN_REDUCTION => Role::InReduction(by),
                    word::TASK_REDUCTION => Role::TaskReduction(by),
                    _ => Role::Reduction(by),
                };
                self.item_clause(at, role)
            }
            word::DEPEND => {
                self.open()?;
                self.depend_clause(at)
            }
            _ => Err(self.fault(Why::Clause)),
        }
    }

    fn open(&mut self) -> Result<(), ParseError> {
        self.step();
        self.want(Mark::Open)
    }

    /// A clause with one value.
    fn value_clause(&mut self, at: u32, role: Role) -> Result<Clause, ParseError> {
        if self.is_word(word::STRICT) && self.ahead(1) == Kind::Mark(Mark::Colon) {
            self.step();
            self.step();
        }
        let value = self.whole()?;
        self.want(Mark::Close)?;
        let mut items = Vec::new(self.alloc);
        items.push(value)?;
        Ok(self.made(at, role, items))
    }

    /// The directive for which an `if` counts.
    fn directive_before_colon(&mut self) -> Option<Directive> {
        let Kind::Name(name) = self.kind() else {
            return None;
        };
        if self.ahead(1) != Kind::Mark(Mark::Colon) {
            return None;
        }
        let directive = directive_of(name)?;
        self.step();
        self.step();
        Some(directive)
    }

    fn default_clause(&mut self, at: u32) -> Result<Clause, ParseError> {
        let name = self.name()?;
        self.want(Mark::Close)?;
        match default_of(name) {
            Some(default) => Ok(self.plain(at, Role::Default(default))),
            None => Err(self.fault(Why::Clause)),
        }
    }

    /// What a reduction joins by, and its colon.
    fn reducing(&mut self) -> Result<Reducing, ParseError> {
        if matches!(self.kind(), Kind::Name(word::TASK | word::DEFAULT))
            && self.ahead(1) == Kind::Mark(Mark::Comma)
        {
            self.step();
            self.step();
        }
        let by = match self.kind() {
            // (of the values that tasks have nothing is known, and how they are combined isn't either, as of products)
            Kind::Name(name) if self.reductions.contains(&name) => Reducing::Times,
            other => match reducing_of(other) {
                Some(by) => by,
                None => return Err(self.fault(Why::Reduction)),
            },
        };
        self.step();
        self.want(Mark::Colon)?;
        Ok(by)
    }

    /// The items up to the bracket.
    fn items(&mut self) -> Result<Vec<Expr>, ParseError> {
        let mut items = Vec::new(self.alloc);
        for _ in 0..self.tokens.len() {
            if self.take(Mark::Close) {
                self.settle()?;
                return Ok(items);
            }
            self.links = 0;
            let item = self.unary(MAX_DEPTH)?;
            items.push(item)?;
            if !self.take(Mark::Comma) && !self.is_mark(Mark::Close) {
                break;
            }
        }
        Err(self.fault(Why::Expected(Mark::Close)))
    }

    fn item_clause(&mut self, at: u32, role: Role) -> Result<Clause, ParseError> {
        let items = self.items()?;
        Ok(self.made(at, role, items))
    }

    /// A `depend` clause, with iterators where it has them.
    fn depend_clause(&mut self, at: u32) -> Result<Clause, ParseError> {
        self.scope.open()?;
        let iterators = if self.take_word(word::ITERATOR) {
            let iterators = self.iterators()?;
            self.want(Mark::Comma)?;
            iterators
        } else {
            Vec::new(self.alloc)
        };
        let kind = self.dependence()?;
        let items = self.items()?;
        self.scope.close()?;
        Ok(Clause {
            at,
            role: Role::Depend(kind),
            iterators,
            items,
        })
    }

    fn dependence(&mut self) -> Result<Dependence, ParseError> {
        let Kind::Name(name) = self.kind() else {
            return Err(self.fault(Why::Dependence));
        };
        let Some(kind) = dependence_of(name) else {
            return Err(self.fault(Why::Dependence));
        };
        self.step();
        self.want(Mark::Colon)?;
        Ok(kind)
    }

    /// `(i = start : end : step, ..)`
    fn iterators(&mut self) -> Result<Vec<Iterator>, ParseError> {
        self.want(Mark::Open)?;
        let mut found = Vec::new(self.alloc);
        for _ in 0..self.tokens.len() {
            if self.take(Mark::Close) {
                return Ok(found);
            }
            let iterator = self.iterator()?;
            found.push(iterator)?;
            let _ = self.take(Mark::Comma);
        }
        Err(self.fault(Why::Expected(Mark::Close)))
    }

    fn iterator(&mut self) -> Result<Iterator, ParseError> {
        let kind = if self.is_type(0) {
            self.type_name_before()?
        } else {
            INT
        };
        let at = self.here();
        let name = self.name()?;
        self.want(Mark::Assign)?;
        let start = self.assign(MAX_DEPTH)?;
        self.want(Mark::Colon)?;
        let end = self.assign(MAX_DEPTH)?;
        let step = if self.take(Mark::Colon) {
            Some(self.assign(MAX_DEPTH)?)
        } else {
            None
        };
        let variable = self.new_variable(name, kind, Storage::Automatic, false, at)?;
        Ok(Iterator {
            variable,
            start,
            end,
            step,
        })
    }

    /// The type of an iterator.
    fn type_name_before(&mut self) -> Result<u32, ParseError> {
        Ok(self.plain_specifiers()?.kind)
    }
}
