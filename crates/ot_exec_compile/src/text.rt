//! What functions of the library read and write of strings.
use crate::fault::Fault;
use crate::maker::{Aim, Maker, Val, WORD};
use crate::value::DEEPEST;
use ot_exec_code::{Form, Operation};
use ot_exec_layout::{Class, Sort, type_of};
use ot_exec_tree::{Expr, Integer};

impl<'a> Maker<'a> {
    /// Whether a type is one of letters.
    pub(crate) fn is_letter(&self, sort: Sort) -> bool {
        matches!(
            self.class(sort),
            Class::Integer(Integer::Char | Integer::UnsignedChar)
        )
    }

    /// Whether a pointer leads to letters.
    pub(crate) fn leads_to_letters(&self, pointer: Sort) -> bool {
        match pointer.target(self.unit) {
            Some(target) => self.is_letter(target),
            None => false,
        }
    }

    /// What is written where a pointer leads may be letters.
    pub(crate) fn notes_letters(&mut self, pointer: Sort) {
        if self.leads_to_letters(pointer) {
            self.writes_letters = true;
        }
    }

    /// How many cells of an array an expression names whole, where it does.
    fn cells_of_array(&mut self, expr: &Expr) -> Result<Option<u32>, Fault> {
        let Some(sort) = type_of(&self.layouts, self.unit, DEEPEST, expr) else {
            return Ok(None);
        };
        if !matches!(self.class(sort), Class::Array(_)) {
            return Ok(None);
        }
        match self.layouts.extent(self.unit, sort) {
            Some(extent) => Ok(Some(self.number(u64::from(extent.cells))?)),
            None => Ok(self.size_slot(sort)),
        }
    }

    /// How many cells are taken for a string that an argument names: those of its array, and one where a pointer leads to it. None where
    /// it names none.
    fn letters_of(&mut self, expr: &Expr, value: Val) -> Result<Option<u32>, Fault> {
        if !self.leads_to_letters(value.sort) {
            return Ok(None);
        }
        if let Some(count) = self.cells_of_array(expr)? {
            return Ok(Some(count));
        }
        self.follows_letters = true;
        Ok(Some(self.number(1)?))
    }

    /// The strings are read that arguments name, from this one on.
    pub(crate) fn reads_texts(
        &mut self,
        at: u32,
        base: usize,
        first: usize,
        arguments: &[Expr],
    ) -> Result<(), Fault> {
        for (number, expr) in arguments.iter().enumerate() {
            if number < first {
                continue;
            }
            if let Some(value) = self.arguments.get(base.saturating_add(number)).copied() {
                self.reads_text(at, expr, value)?;
            }
        }
        Ok(())
    }

    fn reads_text(&mut self, at: u32, expr: &Expr, value: Val) -> Result<(), Fault> {
        if let Some(count) = self.letters_of(expr, value)?
            && !value.own
        {
            self.emit(Form::ReadRange(at, value.slot, count))?;
        }
        Ok(())
    }

    /// A string is put where the first argument leads, of those that the others name. It gives the first one.
    pub(crate) fn puts_text_at(
        &mut self,
        at: u32,
        base: usize,
        arguments: &[Expr],
    ) -> Result<Val, Fault> {
        let pointer = self.argument(at, base, 0)?;
        self.reads_texts(at, base, 1, arguments)?;
        if let Some(expr) = arguments.first()
            && let Some(count) = self.letters_of(expr, pointer)?
        {
            self.gets_unknown(at, pointer, count)?;
        }
        Ok(pointer)
    }

    /// The same of at most as many letters as the argument of this number says.
    pub(crate) fn puts_most(
        &mut self,
        at: u32,
        base: usize,
        arguments: &[Expr],
        number: usize,
    ) -> Result<Val, Fault> {
        let pointer = self.argument(at, base, 0)?;
        let most = self.argument(at, base, number)?;
        self.reads_texts(at, base, 1, arguments)?;
        self.gets_unknown(at, pointer, most.slot)?;
        Ok(pointer)
    }

    /// As many bytes as two arguments say are put where the first one leads.
    pub(crate) fn puts_bytes(&mut self, at: u32, base: usize) -> Result<Val, Fault> {
        let pointer = self.argument(at, base, 0)?;
        let each = self.argument(at, base, 1)?;
        let many = self.argument(at, base, 2)?;
        let bytes = self.operate(Operation::Multiply, WORD, each.slot, many.slot)?;
        let extent = self.leads_to(pointer.sort);
        let count = self.cells_in(bytes, extent)?;
        self.gets_unknown(at, pointer, count)?;
        self.unknown_of(Sort::integer(Integer::UnsignedLong))
    }

    /// So many cells where a pointer leads get what isn't known.
    fn gets_unknown(&mut self, at: u32, pointer: Val, count: u32) -> Result<(), Fault> {
        self.writes_letters = true;
        if !pointer.own {
            self.emit(Form::WriteRange(at, pointer.slot, count))?;
            return Ok(());
        }
        let unknown = self.unknown()?;
        let (index, start, out) = self.begins_count(at, count)?;
        let slot = self.advance(pointer.slot, index, 1)?;
        let aim = self.at_pointer(at, pointer);
        self.store_scalar(Aim { slot, ..aim }, unknown)?;
        self.ends_count(index, start, out)
    }
}
