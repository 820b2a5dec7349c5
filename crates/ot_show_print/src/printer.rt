//! Statements as people who write OpenMP read them.
ghost use Rattle.std.specs.Prelude.{◌≡◌, ◌++◌, OnOk, Some, None, [], string_bytes};
ghost use Rattle.std.specs.Fmt.{decimal};
ghost use Rattle.ot_show_print.specs.Shown as shown;
ghost use Rattle.ot_model.specs.Signs.{identifier};
ghost use Rattle.ot_model.specs.View.{expr_of, stmt_of};

use crate::sections::{sections_in, sections_of};
use ot_model::{ArrayShape, Cell, Decl, Expr, Fold, Mode, Section, Stmt};
use std::alloc::{AllocError, Global};
use std::marker::Model;

/// A text that is being written, with the arrays whose names it uses.
#[derive(Drop)]
pub struct Printer<'a> {
    alloc: Global,
    arrays: &'a [ArrayShape],
    text: String,
}

impl<'a> Model for Printer<'a> {
    ghost use Rattle.std.specs.Prelude.{string_bytes};
    ghost use Rattle.ot_show_print.specs.Shown.{Writing, names_of};

    ghost Value = { Writing };

    ghost view = { λ p. record { names = names_of p.arrays.now; text = string_bytes p.text } };
}

impl<'a> Printer<'a> {
    ghost use Rattle.ot_show_print.specs.Shown.{names_of};

    /// No text yet. It takes no memory.
    pub fn new(alloc: Global, arrays: &'a [ArrayShape]) -> Printer<'a>
        ensures names { result.names ≡ names_of arrays.now }
        ensures text { result.text ≡ [] }
    {
        Printer {
            alloc,
            arrays,
            text: String::new(alloc),
        }
    }

    /// The text so far.
    pub fn into_text(self) -> String
        ensures { string_bytes result ≡ self.entry.text }
    {
        self.text
    }

    /// These words as they are.
    pub fn words(&mut self, words: &str) -> Result<(), AllocError>
        ensures text { OnOk result (self.new.text ≡ self.old.text ++ words.now) }
        ensures names { self.new.names ≡ self.old.names }
    {
        self.text.push_str(words)
    }

    /// A number in decimal.
    pub fn number(&mut self, number: u64) -> Result<(), AllocError>
        ensures text { OnOk result (self.new.text ≡ self.old.text ++ decimal number) }
        ensures names { self.new.names ≡ self.old.names }
    {
        let digits = format!(in self.alloc; "{number}")?;
        self.text.push_str(digits.as_str())
    }

    /// The name of an array.
    pub fn name(&mut self, array: u32) -> Result<(), AllocError>
        ensures text { OnOk result (self.new.text ≡ self.old.text ++ shown.name self.old.names array) }
        ensures names { self.new.names ≡ self.old.names }
    {
        match self.arrays.get(array as usize) {
            Some(array) => self.text.push_str(array.name.as_str()),
            None => self.text.push_str("?"),
        }
    }

    /// `a[0]`.
    pub fn cell(&mut self, cell: Cell) -> Result<(), AllocError>
        ensures text { OnOk result (self.new.text ≡ self.old.text ++ shown.cell self.old.names cell) }
        ensures names { self.new.names ≡ self.old.names }
    {
        self.name(cell.array)?;
        self.words("[")?;
        self.number(u64::from(cell.index))?;
        self.words("]")
    }

    fn length(&mut self, len: u32) -> Result<(), AllocError>
        ensures text { OnOk result (self.new.text ≡ self.old.text ++ shown.length_of len) }
        ensures names { self.new.names ≡ self.old.names }
    {
        if len > 1 {
            self.words(":")?;
            self.number(u64::from(len))?;
        }
        Ok(())
    }

    /// `a[0]`, or `a[0:2]` where there are more cells: the first one and how many there are.
    fn section(&mut self, section: Section) -> Result<(), AllocError>
        ensures text { OnOk result (self.new.text ≡ self.old.text ++ shown.section self.old.names section) }
        ensures names { self.new.names ≡ self.old.names }
    {
        self.name(section.array)?;
        self.words("[")?;
        self.number(u64::from(section.start))?;
        self.length(section.len)?;
        self.words("]")
    }

    /// Cells with commas between them: those that stand in a row as one section, as `a[0:2], b[1]`.
    pub fn cells(&mut self, cells: &[Cell]) -> Result<(), AllocError>
        ensures text { OnOk result (self.new.text ≡ self.old.text ++ shown.sections self.old.names (shown.sections_of cells.now)) }
        ensures names { self.new.names ≡ self.old.names }
    {
        let sections = sections_of(self.alloc, cells)?;
        self.sections(&sections)
    }

    fn sections(&mut self, sections: &[Section]) -> Result<(), AllocError>
        ensures text { OnOk result (self.new.text ≡ self.old.text ++ shown.sections self.old.names sections.now) }
        ensures names { self.new.names ≡ self.old.names }
    {
        if sections.is_empty() {
            return Ok(());
        }
        self.section(sections[0])?;
        for section in &sections[1..] {
            self.words(", ")?;
            self.section(*section)?;
        }
        Ok(())
    }

    /// The statement itself, without its bodies.
    pub fn statement(&mut self, stmt: &Stmt) -> Result<(), AllocError>
        ensures text { OnOk result (self.new.text ≡ self.old.text ++ shown.statement self.old.names (stmt_of stmt.now)) }
        ensures names { self.new.names ≡ self.old.names }
    {
        match stmt {
            Stmt::Set(cell, expr) => self.assignment(*cell, " = ", expr),
            Stmt::Fold(op, cell, expr) => self.fold(*op, *cell, expr),
            Stmt::If(expr, _, _) => self.condition("if (", expr),
            Stmt::Task(decl, _) => self.task(decl),
            Stmt::Wait(None) => self.wait_for_all(),
            Stmt::Wait(Some(decl)) => self.wait_for(decl),
            Stmt::Group(op, cells, _) => self.group(*op, cells),
        }
    }

    fn condition(&mut self, head: &str, expr: &Expr) -> Result<(), AllocError>
        ensures text { OnOk result (self.new.text ≡ self.old.text ++ shown.condition self.old.names head.now (expr_of expr.now)) }
        ensures names { self.new.names ≡ self.old.names }
    {
        self.words(head)?;
        self.value(expr)?;
        self.words(")")
    }

    /// `a[0] += 2`, or `a[0] = max(a[0], 2)` where the operation is written as a function.
    fn fold(&mut self, op: Fold, cell: Cell, expr: &Expr) -> Result<(), AllocError>
        ensures text { OnOk result (self.new.text ≡ self.old.text ++ shown.fold self.old.names op cell (expr_of expr.now)) }
        ensures names { self.new.names ≡ self.old.names }
    {
        if op.is_call() {
            self.cell(cell)?;
            self.words(" = ")?;
            self.words(op.sign())?;
            self.cell(cell)?;
            self.words(", ")?;
            self.value(expr)?;
            self.words(")")
        } else {
            self.assignment(cell, op.sign(), expr)
        }
    }

    fn assignment(&mut self, cell: Cell, sign: &str, expr: &Expr) -> Result<(), AllocError>
        ensures text { OnOk result (self.new.text ≡ self.old.text ++ shown.cell self.old.names cell ++ sign.now ++ shown.value self.old.names (expr_of expr.now)) }
        ensures names { self.new.names ≡ self.old.names }
    {
        self.cell(cell)?;
        self.words(sign)?;
        self.value(expr)
    }

    /// A task with what it declares: `task in(a[0]) out(a[1])`.
    pub fn task(&mut self, decl: &Decl) -> Result<(), AllocError>
        ensures text { OnOk result (self.new.text ≡ self.old.text ++ shown.task self.old.names decl.now) }
        ensures names { self.new.names ≡ self.old.names }
    {
        self.task_as("task", decl)
    }

    fn task_as(&mut self, head: &str, decl: &Decl) -> Result<(), AllocError>
        ensures text { OnOk result (self.new.text ≡ self.old.text ++ shown.task_as self.old.names head.now decl.now) }
        ensures names { self.new.names ≡ self.old.names }
    {
        self.words(head)?;
        self.dependences(decl)?;
        self.folded(decl, Fold::Plus)?;
        self.folded(decl, Fold::Times)?;
        self.folded(decl, Fold::And)?;
        self.folded(decl, Fold::Or)?;
        self.folded(decl, Fold::Xor)?;
        self.folded(decl, Fold::Min)?;
        self.folded(decl, Fold::Max)
    }

    fn folded(&mut self, decl: &Decl, op: Fold) -> Result<(), AllocError>
        ensures text { OnOk result (self.new.text ≡ self.old.text ++ shown.fold_clause self.old.names decl.now op) }
        ensures names { self.new.names ≡ self.old.names }
    {
        let sections = sections_in(self.alloc, decl, Mode::Folds(op))?;
        self.reduction(" in_reduction(", op, &sections)
    }

    /// A wait for all children.
    pub fn wait_for_all(&mut self) -> Result<(), AllocError>
        ensures text { OnOk result (self.new.text ≡ self.old.text ++ shown.wait self.old.names None) }
        ensures names { self.new.names ≡ self.old.names }
    {
        self.words("taskwait")
    }

    /// A wait with what it declares: `taskwait in(a[0])`. One that declares no cell is `taskwait in()`.
    pub fn wait_for(&mut self, decl: &Decl) -> Result<(), AllocError>
        ensures text { OnOk result (self.new.text ≡ self.old.text ++ shown.wait self.old.names (Some decl.now)) }
        ensures names { self.new.names ≡ self.old.names }
    {
        self.wait_for_all()?;
        self.waited(decl)
    }

    fn waited(&mut self, decl: &Decl) -> Result<(), AllocError>
        ensures text { OnOk result (self.new.text ≡ self.old.text ++ shown.wait_declares self.old.names decl.now) }
        ensures names { self.new.names ≡ self.old.names }
    {
        if decl.uses().is_empty() {
            self.words(" in()")
        } else {
            self.dependences(decl)
        }
    }

    /// The cells that are declared as read, and those declared as written.
    fn dependences(&mut self, decl: &Decl) -> Result<(), AllocError>
        ensures text { OnOk result (self.new.text ≡ self.old.text ++ shown.dependences self.old.names decl.now) }
        ensures names { self.new.names ≡ self.old.names }
    {
        self.clause(" in(", decl, Mode::Reads)?;
        self.clause(" out(", decl, Mode::Writes)
    }

    /// The cells that are declared in this mode, if any.
    fn clause(&mut self, words: &str, decl: &Decl, mode: Mode) -> Result<(), AllocError>
        ensures text { OnOk result (self.new.text ≡ self.old.text ++ shown.mode_clause self.old.names words.now decl.now mode) }
        ensures names { self.new.names ≡ self.old.names }
    {
        let sections = sections_in(self.alloc, decl, mode)?;
        if sections.is_empty() {
            return Ok(());
        }
        self.words(words)?;
        self.sections(&sections)?;
        self.words(")")
    }

    /// The beginning of a group: `taskgroup task_reduction(+: a[0])`.
    pub fn group(&mut self, op: Fold, cells: &[Cell]) -> Result<(), AllocError>
        ensures text { OnOk result (self.new.text ≡ self.old.text ++ shown.group self.old.names op cells.now) }
        ensures names { self.new.names ≡ self.old.names }
    {
        self.group_as("taskgroup", op, cells)
    }

    fn group_as(&mut self, head: &str, op: Fold, cells: &[Cell]) -> Result<(), AllocError>
        ensures text { OnOk result (self.new.text ≡ self.old.text ++ shown.group_as self.old.names head.now op cells.now) }
        ensures names { self.new.names ≡ self.old.names }
    {
        let sections = sections_of(self.alloc, cells)?;
        self.words(head)?;
        self.reduction(" task_reduction(", op, &sections)
    }

    /// What the operation of a reduction is called in a clause: `+`, or `max`.
    pub fn operation(&mut self, op: Fold) -> Result<(), AllocError>
        ensures text { OnOk result (self.new.text ≡ self.old.text ++ identifier op) }
        ensures names { self.new.names ≡ self.old.names }
    {
        self.words(op.identifier())
    }

    /// A clause that names the operation and the cells, if any.
    fn reduction(&mut self, words: &str, op: Fold, sections: &[Section]) -> Result<(), AllocError>
        ensures text { OnOk result (self.new.text ≡ self.old.text ++ shown.reduction self.old.names words.now op sections.now) }
        ensures names { self.new.names ≡ self.old.names }
    {
        if sections.is_empty() {
            return Ok(());
        }
        self.words(words)?;
        self.operation(op)?;
        self.words(": ")?;
        self.sections(sections)?;
        self.words(")")
    }

    /// A value: `a[0] + 2`.
    #[cycle(value)]
    pub fn value(&mut self, expr: &Expr) -> Result<(), AllocError>
        ensures text { OnOk result (self.new.text ≡ self.old.text ++ shown.value self.old.names (expr_of expr.now)) }
        ensures names { self.new.names ≡ self.old.names }
    {
        match expr {
            Expr::Number(number) => self.number(*number),
            Expr::Cell(cell) => self.cell(*cell),
            Expr::Op(op, one, two) => {
                if op.is_call() {
                    self.words(op.sign())?;
                    self.value(one)?;
                    self.words(", ")?;
                    self.value(two)?;
                    self.words(")")
                } else {
                    self.operand(one)?;
                    self.words(op.sign())?;
                    self.operand(two)
                }
            }
            Expr::Pick(section, chosen) => {
                self.name(section.array)?;
                self.words("[")?;
                self.number(u64::from(section.start))?;
                self.words(" + ")?;
                self.operand(chosen)?;
                self.words(" % ")?;
                self.number(u64::from(section.len))?;
                self.words("]")
            }
        }
    }

    /// A side of an operation: in brackets where it is an operation with a sign itself.
    #[cycle(value)]
    fn operand(&mut self, expr: &Expr) -> Result<(), AllocError>
        ensures text { OnOk result (self.new.text ≡ self.old.text ++ shown.side self.old.names (expr_of expr.now)) }
        ensures names { self.new.names ≡ self.old.names }
    {
        if is_nested(expr) {
            self.words("(")?;
            self.value(expr)?;
            self.words(")")
        } else {
            self.value(expr)
        }
    }
}

/// Whether a value has a sign itself, so that as a side it stands in brackets.
pub fn is_nested(expr: &Expr) -> bool
    ensures { result ≡ shown.is_nested (expr_of expr.now) }
{
    match expr {
        Expr::Op(op, _, _) => !op.is_call(),
        _ => false,
    }
}
