//! Expressions.
use crate::at::{at_of, site_of};
use crate::fault::{Fault, Why};
use crate::maker::{Aim, Held, Maker, Val, Way, below};
use crate::unions::stands_apart;
use ot_exec_code::Form;
use ot_exec_layout::{Class, Sort, chosen, type_of};
use ot_exec_tree::{Binary, Expr, Integer, Sign};

/// How deep expressions may nest.
pub(crate) const DEEPEST: u32 = 2_000;

/// What needs no other value.
impl<'a> Maker<'a> {
    fn text(&mut self, at: u32, bytes: u32) -> Result<Val, Fault> {
        let slot = self.fresh()?;
        let name = self.name_at(at);
        self.emit(Form::Begin(slot, bytes, name, false))?;
        let sort = Sort::integer(Integer::Char).pointer();
        Ok(Val {
            slot,
            sort,
            own: true,
            within: None,
        })
    }

    /// An enumerator, which is an `int` where that has its value (ISO C11, section 6.7.2.2).
    fn enumerator(&mut self, at: u32, expr: &Expr) -> Result<Val, Fault> {
        match self.layouts.constant(self.unit, expr) {
            Some(constant) => {
                let int = constant.to(Integer::Int);
                let constant = if int.number == constant.number {
                    int
                } else {
                    constant
                };
                let slot = self.number(constant.number)?;
                Ok(self.value(slot, Sort::integer(constant.integer)))
            }
            None => Err(Fault::Refused(at, Why::NotConstant)),
        }
    }

    fn function(&mut self, function: u32) -> Result<Val, Fault> {
        let sort = match self.unit.functions.get(function as usize) {
            Some(function) => Sort::of(self.unit, function.kind).pointer(),
            None => Sort::ANY_POINTER,
        };
        let slot = self.fresh()?;
        self.emit(Form::Function(slot, function))?;
        Ok(self.value(slot, sort))
    }

    pub(crate) fn aim_variable(&mut self, at: u32, variable: u32) -> Result<Aim, Fault> {
        let sort = self.sort_of(variable);
        let (slot, way, lends) = match self.held(variable) {
            Held::Slot(slot) => (slot, Way::Slot, false),
            Held::Lender(slot) => (slot, Way::Slot, true),
            Held::Place(slot) => (slot, Way::Cell, false),
            Held::Own(slot) => (slot, Way::Own, self.owned.has_memory(variable)),
            Held::Object(object) => {
                let slot = self.fresh()?;
                self.emit(Form::Address(slot, object, 0))?;
                (slot, Way::Cell, false)
            }
            Held::Nowhere => return Err(Fault::Refused(at, Why::NoPlace)),
        };
        Ok(Aim {
            slot,
            sort,
            way,
            site: at,
            lends,
            within: None,
        })
    }

    /// Where a pointer leads.
    pub(crate) fn followed(&mut self, site: u32, pointer: Val) -> Result<Aim, Fault> {
        let Some(sort) = pointer.sort.target(self.unit) else {
            return Err(Fault::Refused(site, Why::NoPointer));
        };
        let way = if pointer.own { Way::Own } else { Way::Cell };
        Ok(Aim {
            slot: pointer.slot,
            sort,
            way,
            site,
            lends: false,
            within: pointer.within,
        })
    }

    /// An element: one of the two is a pointer, to an array of so many cells, or 0 where it isn't known how many.
    pub(crate) fn element(
        &mut self,
        site: u32,
        one: Val,
        other: Val,
        among: u32,
    ) -> Result<Aim, Fault> {
        let place = match (self.class(one.sort), self.class(other.sort)) {
            (Class::Pointer, Class::Integer(integer)) => {
                self.indexed(site, one, (other, integer), among)?
            }
            _ => self.operated(site, Binary::Add, one, other)?,
        };
        self.followed(site, place)
    }

    /// How many cells an array has, where that is known. Of one with a single element more may lie behind it, and it isn't known.
    fn cells_among(&self, array: &Expr) -> u32 {
        let Some(sort) = type_of(&self.layouts, self.unit, DEEPEST, array) else {
            return 0;
        };
        let Class::Array(element) = self.class(sort) else {
            return 0;
        };
        let each = self.layouts.extent(self.unit, Sort::of(self.unit, element));
        match (self.layouts.extent(self.unit, sort), each) {
            (Some(all), Some(each)) if all.cells > each.cells => all.cells,
            _ => 0,
        }
    }

    /// A struct that is a value lies in an object of its own.
    fn whole(&mut self, site: u32, value: Val) -> Result<Aim, Fault> {
        match self.class(value.sort) {
            Class::Record(_) => Ok(Aim {
                slot: value.slot,
                sort: value.sort,
                way: if value.own { Way::Own } else { Way::Cell },
                site,
                lends: false,
                within: value.within,
            }),
            _ => Err(Fault::Refused(site, Why::NoPlace)),
        }
    }

    /// One more or less, or by this operation: what is stored, and what the expression gives.
    fn changes(
        &mut self,
        at: u32,
        aim: Aim,
        sign: Binary,
        right: Val,
        behind: bool,
    ) -> Result<Val, Fault> {
        let old = self.load(aim)?;
        let old = if behind && aim.way == Way::Slot {
            let slot = self.copy(old.slot)?;
            Val { slot, ..old }
        } else {
            old
        };
        let new = self.operated(at, sign, old, right)?;
        let new = self.convert(at, new, aim.sort)?;
        self.store(aim, new)?;
        Ok(if behind { old } else { new })
    }
}

/// Values and places.
impl<'a> Maker<'a> {
    /// The value of an expression.
    #[cycle(value)]
    pub(crate) fn expression(&mut self, depth: u32, expr: &Expr) -> Result<Val, Fault> {
        let wanted = self.wanted.take();
        self.site = at_of(expr);
        let depth = below(depth, self.site)?;
        match expr {
            Expr::Number(_, number, integer) => {
                let slot = self.number(*number)?;
                Ok(self.value(slot, Sort::integer(*integer)))
            }
            Expr::Real(_, _) => self.unknown_of(Sort::DOUBLE),
            Expr::Text(at, bytes) => self.text(*at, *bytes),
            Expr::Function(_, function) => self.function(*function),
            Expr::Enumerator(at, _) => self.enumerator(*at, expr),
            Expr::Undeclared(at, _) => Err(Fault::Refused(*at, Why::NotDeclared)),
            Expr::Kind(_, _) => self.unknown_of(Sort::INT),
            Expr::Section(at, _, _, _) => Err(Fault::Refused(*at, Why::Section)),
            Expr::SizeOfType(at, _) | Expr::SizeOf(at, _) => self.size(*at, expr),
            Expr::Variable(_, _)
            | Expr::Index(_, _, _)
            | Expr::Member(_, _, _)
            | Expr::Arrow(_, _, _)
            | Expr::Literal(_, _, _)
            | Expr::Unary(_, Sign::Follow, _) => {
                let aim = self.aim(depth, expr)?;
                self.load(aim)
            }
            Expr::Unary(at, Sign::Address, one) => self.address(depth, *at, one),
            Expr::Unary(at, sign, one) => {
                let value = self.expression(depth, one)?;
                self.signed(*at, *sign, value)
            }
            Expr::StepBefore(at, adds, one) => self.step(depth, *at, *adds, one, false),
            Expr::StepBehind(at, adds, one) => self.step(depth, *at, *adds, one, true),
            Expr::Binary(at, sign, one, other) => self.binary(depth, *at, *sign, one, other),
            Expr::Assign(at, sign, to, from) => self.assign(depth, *at, *sign, to, from),
            Expr::Choice(at, test, one, other) => self.choice(depth, *at, test, one, other),
            Expr::Comma(_, one, other) => {
                self.expression(depth, one)?;
                self.expression(depth, other)
            }
            Expr::Cast(_, kind, one) => {
                let sort = Sort::of(self.unit, *kind);
                self.converted(depth, one, sort)
            }
            Expr::Call(at, function, arguments) => {
                self.call(depth, *at, wanted, function, arguments.as_slice())
            }
        }
    }

    /// The value, converted to a type.
    #[cycle(value)]
    pub(crate) fn converted(&mut self, depth: u32, expr: &Expr, sort: Sort) -> Result<Val, Fault> {
        let at = at_of(expr);
        let depth = below(depth, at)?;
        self.wanted = Some(sort);
        let value = self.expression(depth, expr)?;
        self.convert(at, value, sort)
    }

    #[cycle(value)]
    fn address(&mut self, depth: u32, at: u32, one: &Expr) -> Result<Val, Fault> {
        let depth = below(depth, at)?;
        if let Expr::Function(_, function) = one {
            return self.function(*function);
        }
        let aim = self.aim(depth, one)?;
        if aim.way == Way::Slot {
            return Err(Fault::Refused(at, Why::NoPlace));
        }
        Ok(Val {
            slot: aim.slot,
            sort: aim.sort.pointer(),
            own: aim.way == Way::Own,
            within: aim.within,
        })
    }

    #[cycle(value)]
    fn step(
        &mut self,
        depth: u32,
        at: u32,
        adds: bool,
        one: &Expr,
        behind: bool,
    ) -> Result<Val, Fault> {
        let depth = below(depth, at)?;
        let aim = self.aim(depth, one)?;
        let slot = self.number(1)?;
        let right = self.value(slot, Sort::INT);
        let sign = if adds { Binary::Add } else { Binary::Subtract };
        self.changes(at, aim, sign, right, behind)
    }

    #[cycle(value)]
    fn binary(
        &mut self,
        depth: u32,
        at: u32,
        sign: Binary,
        one: &Expr,
        other: &Expr,
    ) -> Result<Val, Fault> {
        let depth = below(depth, at)?;
        let is_either = match sign {
            Binary::Both => false,
            Binary::Either => true,
            _ => {
                let one = self.expression(depth, one)?;
                let other = self.expression(depth, other)?;
                return self.operated(at, sign, one, other);
            }
        };
        let given = self.fresh()?;
        let first = self.expression(depth, one)?;
        let first = self.test(at, first)?;
        let first = if is_either {
            self.is_zero(first)?
        } else {
            first
        };
        self.emit(Form::Number(given, u64::from(is_either)))?;
        let out = self.branch(at, first)?;
        let second = self.expression(depth, other)?;
        let second = self.test(at, second)?;
        let second = self.truth(second)?;
        self.emit(Form::Copy(given, second))?;
        self.lands(out)?;
        Ok(self.value(given, Sort::INT))
    }

    #[cycle(value)]
    fn assign(
        &mut self,
        depth: u32,
        at: u32,
        sign: Option<Binary>,
        to: &Expr,
        from: &Expr,
    ) -> Result<Val, Fault> {
        let depth = below(depth, at)?;
        let aim = self.aim(depth, to)?;
        match sign {
            None => {
                let value = self.converted(depth, from, aim.sort)?;
                self.store(aim, value)?;
                Ok(value)
            }
            Some(sign) => {
                let right = self.expression(depth, from)?;
                self.changes(at, aim, sign, right, false)
            }
        }
    }

    #[cycle(value)]
    fn choice(
        &mut self,
        depth: u32,
        at: u32,
        test: &Expr,
        one: &Expr,
        other: &Expr,
    ) -> Result<Val, Fault> {
        let depth = below(depth, at)?;
        let sort = self.choice_sort(one, other);
        let given = self.fresh()?;
        let test = self.expression(depth, test)?;
        let test = self.test(at, test)?;
        let otherwise = self.branch(at, test)?;
        let value = self.expression(depth, one)?;
        let value = self.convert(at, value, sort)?;
        stands_apart(at, value.within)?;
        self.emit(Form::Copy(given, value.slot))?;
        let out = self.jump()?;
        self.lands(otherwise)?;
        let own = value.own;
        let value = self.expression(depth, other)?;
        let value = self.convert(at, value, sort)?;
        stands_apart(at, value.within)?;
        self.emit(Form::Copy(given, value.slot))?;
        self.lands(out)?;
        Ok(Val {
            slot: given,
            sort,
            own: own && value.own,
            within: None,
        })
    }

    fn choice_sort(&self, one: &Expr, other: &Expr) -> Sort {
        let one = type_of(&self.layouts, self.unit, DEEPEST, one);
        let other = type_of(&self.layouts, self.unit, DEEPEST, other);
        match (one, other) {
            (Some(one), Some(other)) => {
                chosen(self.unit, one.decayed(self.unit), other.decayed(self.unit))
            }
            (Some(one), None) => one.decayed(self.unit),
            (None, Some(other)) => other.decayed(self.unit),
            (None, None) => Sort::INT,
        }
    }

    /// The slot of a value that decides, where it is one that may.
    pub(crate) fn test(&mut self, at: u32, value: Val) -> Result<u32, Fault> {
        match self.class(value.sort) {
            Class::Integer(_) | Class::Real(_) | Class::Pointer => Ok(value.slot),
            _ => Err(Fault::Refused(at, Why::Operation)),
        }
    }

    /// The place that an expression names.
    #[cycle(value)]
    pub(crate) fn aim(&mut self, depth: u32, expr: &Expr) -> Result<Aim, Fault> {
        let site = site_of(expr);
        let depth = below(depth, site)?;
        match expr {
            Expr::Variable(at, variable) => self.aim_variable(*at, *variable),
            Expr::Unary(_, Sign::Follow, one) => {
                let pointer = self.expression(depth, one)?;
                self.followed(site, pointer)
            }
            Expr::Index(_, one, other) => {
                let among = self.cells_among(one);
                let one = self.expression(depth, one)?;
                let other = self.expression(depth, other)?;
                let among = if one.within.is_some() { 0 } else { among };
                let aim = self.element(site, one, other, among)?;
                Ok(self.by_number(aim, expr))
            }
            Expr::Member(at, one, name) => {
                let whole = self.aim(depth, one)?;
                let found = self.member(*at, whole, *name)?;
                Ok(self.by_number(Aim { site, ..found }, expr))
            }
            Expr::Arrow(at, one, name) => {
                let pointer = self.expression(depth, one)?;
                let whole = self.followed(site, pointer)?;
                self.member(*at, whole, *name)
            }
            Expr::Literal(at, variable, initial) => self.literal(depth, *at, *variable, initial),
            Expr::Call(_, _, _)
            | Expr::Choice(_, _, _, _)
            | Expr::Comma(_, _, _)
            | Expr::Assign(_, _, _, _) => {
                let value = self.expression(depth, expr)?;
                self.whole(site, value)
            }
            _ => Err(Fault::Refused(site, Why::NoPlace)),
        }
    }
}
