//! Declarations of variables, functions and types (ISO C11, section 6.7).
use crate::declarator::{Declared, Parameter};
use crate::fault::{ParseError, Why};
use crate::parser::{MAX_DEPTH, Parser, number};
use crate::scope::Meaning;
use crate::specifier::Specifiers;
use ot_exec_tokens::{Mark, word};
use ot_exec_tree::{Function, Initial, Stmt, Storage, Type, Variable};

impl Parser {
    /// A declaration. Where it is a function with its body, its number and its parameters; the body begins then.
    pub(crate) fn declaration(
        &mut self,
        made: &mut Vec<Stmt>,
    ) -> Result<Option<(u32, Vec<Parameter>)>, ParseError> {
        if self.take_word(word::STATIC_ASSERT) {
            self.skip_brackets();
            self.want(Mark::Semicolon)?;
            return Ok(None);
        }
        let said = self.specifiers(MAX_DEPTH)?;
        if self.take(Mark::Semicolon) {
            return Ok(None);
        }
        for _ in 0..self.tokens.len() {
            let function = self.declare(said, made)?;
            if function.is_some() {
                return Ok(function);
            }
            if !self.take(Mark::Comma) {
                break;
            }
        }
        self.want(Mark::Semicolon)?;
        Ok(None)
    }

    /// What one declarator declares. Where it is a function with its body, its number and its parameters.
    fn declare(
        &mut self,
        said: Specifiers,
        made: &mut Vec<Stmt>,
    ) -> Result<Option<(u32, Vec<Parameter>)>, ParseError> {
        let Declared {
            name,
            kind,
            at,
            parameters,
        } = self.declarator(said.kind, MAX_DEPTH)?;
        let Some(name) = name else {
            return Err(self.fault(Why::NoName));
        };
        let is_function = matches!(
            self.unit.types.get(kind as usize),
            Some(Type::Function(_, _))
        );
        if said.is_typedef {
            self.settle()?;
            self.scope.declare(name, Meaning::Type(kind))?;
            return Ok(None);
        }
        if !is_function {
            self.variable(said, name, kind, at, made)?;
            return Ok(None);
        }
        let function = self.function(name, kind, at)?;
        if !self.is_inside && self.is_mark(Mark::OpenBlock) {
            return Ok(Some((function, parameters)));
        }
        self.pending.clear();
        Ok(None)
    }

    /// The function of a name: one that was declared before, or a new one.
    fn function(&mut self, name: u32, kind: u32, at: u32) -> Result<u32, ParseError> {
        if let Some(Meaning::Function(function)) = self.scope.meaning(name) {
            if let Some(it) = self.unit.functions.get_mut(function as usize) {
                it.kind = kind;
                it.at = at;
            }
            return Ok(function);
        }
        let made = number(self.unit.functions.len());
        self.unit.functions.push(Function {
            name,
            kind,
            parameters: Vec::new(self.alloc),
            body: None,
            at,
        })?;
        self.scope.declare(name, Meaning::Function(made))?;
        Ok(made)
    }

    fn storage(&self, said: Specifiers) -> Storage {
        if said.is_threads_own {
            Storage::Threadprivate
        } else if said.is_extern {
            Storage::Extern
        } else if said.is_static || !self.is_inside {
            Storage::Static
        } else {
            Storage::Automatic
        }
    }

    /// A variable, with its initial value.
    fn variable(
        &mut self,
        said: Specifiers,
        name: u32,
        kind: u32,
        at: u32,
        made: &mut Vec<Stmt>,
    ) -> Result<(), ParseError> {
        self.settle()?;
        let storage = self.storage(said);
        let variable = match self.known(name, storage) {
            Some(variable) => variable,
            None => self.new_variable(name, kind, storage, said.is_atomic, at)?,
        };
        let initial = self.initial_behind()?;
        if storage == Storage::Automatic {
            made.push(Stmt::Declares(at, variable, initial))?;
        } else if let Some(it) = self.unit.variables.get_mut(variable as usize) {
            if storage == Storage::Static {
                it.storage = Storage::Static;
                it.kind = kind;
            }
            if initial.is_some() {
                it.storage = storage_of_defined(it.storage);
                it.initial = initial;
            }
        }
        Ok(())
    }

    /// What stands behind `=`.
    fn initial_behind(&mut self) -> Result<Option<Initial>, ParseError> {
        if !self.take(Mark::Assign) {
            return Ok(None);
        }
        self.links = 0;
        let initial = self.initial(MAX_DEPTH)?;
        self.settle()?;
        Ok(Some(initial))
    }

    /// A variable of the file that was declared before by this name.
    fn known(&self, name: u32, storage: Storage) -> Option<u32> {
        let is_of_file = !self.is_inside || storage == Storage::Extern;
        match self.scope.meaning(name) {
            Some(Meaning::Variable(variable)) if is_of_file => {
                let it = self.unit.variables.get(variable as usize)?;
                if it.storage == Storage::Static || it.storage == Storage::Extern {
                    Some(variable)
                } else {
                    None
                }
            }
            _ => None,
        }
    }

    pub(crate) fn new_variable(
        &mut self,
        name: u32,
        kind: u32,
        storage: Storage,
        is_atomic: bool,
        at: u32,
    ) -> Result<u32, ParseError> {
        let made = number(self.unit.variables.len());
        self.unit.variables.push(Variable {
            name,
            kind,
            storage,
            is_atomic,
            at,
            initial: None,
        })?;
        self.scope.declare(name, Meaning::Variable(made))?;
        Ok(made)
    }

    /// The parameters of a function as variables.
    pub(crate) fn declare_parameters(
        &mut self,
        found: &[Parameter],
    ) -> Result<Vec<u32>, ParseError> {
        let mut made = Vec::new(self.alloc);
        for parameter in found {
            let name = parameter.name.unwrap_or(0);
            made.push(self.new_variable(
                name,
                parameter.kind,
                Storage::Parameter,
                false,
                parameter.at,
            )?)?;
        }
        self.settle()?;
        Ok(made)
    }
}

/// The storage of a variable that has an initial value.
fn storage_of_defined(storage: Storage) -> Storage {
    match storage {
        Storage::Extern => Storage::Static,
        other => other,
    }
}
