//! A whole unit.
use crate::fault::{Fault, Why};
use crate::label::Labels;
use crate::maker::{ALONE, Aim, Around, COUNT, FLAGS, Frame, Held, Maker, Returns, Way};
use crate::names::Known;
use crate::orphan::binding_functions;
use crate::own::{Owned, owned_of};
use crate::statement::is_automatic;
use crate::team::{Team, Whose};
use crate::value::DEEPEST;
use ot_exec_code::{Code, Form, Function};
use ot_exec_layout::{Class, Layouts, Sort};
use ot_exec_sharing::Sharing;
use ot_exec_tree::{Initial, Stmt, Storage, Unit, Variable};
use std::alloc::Global;

/// The code of a unit.
#[derive(Drop)]
pub struct Translated {
    pub code: Code,
    /// By form: the token at which stands what it is made of.
    pub sites: Vec<u32>,
    /// The objects that live as long as the program: the numbers of their variables, in the order in which they begin.
    pub globals: Vec<u32>,
    /// The names of functions that are called as if they touched nothing.
    pub untouched: Vec<u32>,
    /// The function that begins, and whether it isn't `main`, but called by one task.
    pub entry: u32,
    pub is_alone: bool,
    /// Whether random numbers of its own are drawn.
    pub is_random: bool,
    /// Whether letters are written, and of a string that a pointer leads to only the first one is touched.
    pub follows_letters: bool,
    /// Whether a team of two threads is executed where a team may have more.
    pub has_team: bool,
    /// The forms that can't be executed because the threads of a team came to different barriers there.
    pub apart: Vec<u32>,
    /// The forms that can't be executed because a function was called there whose constructs belong to a team.
    pub orphans: Vec<u32>,
}

/// How many words a command line has at most, and how many letters its first one.
const MOST_WORDS: u32 = 256;

/// The name of what has none, which is a keyword's number: a compound literal's.
const NAMELESS: u32 = 0;

/// Whether a variable has an object that begins with the program.
fn is_global(variable: &Variable) -> bool {
    !is_automatic(variable) && variable.name != NAMELESS
}

impl<'a> Maker<'a> {
    fn empty(
        alloc: Global,
        unit: &'a Unit,
        known: &'a [Option<Known>],
        sharing: &'a Sharing,
        owned: &'a Owned,
        layouts: Layouts,
    ) -> Result<Maker<'a>, Fault> {
        let held = vec![in alloc; Held::Nowhere; unit.variables.len()]?;
        let stamps = vec![in alloc; 0u32; unit.variables.len()]?;
        let sizes = vec![in alloc; None; unit.types.len()]?;
        let functions = vec![in alloc; Function { start: 0, slots: 1 }; unit.functions.len()]?;
        let is_untouched = vec![in alloc; false; known.len()]?;
        Ok(Maker {
            alloc,
            unit,
            known,
            sharing,
            owned,
            layouts,
            forms: Vec::new(alloc),
            functions,
            held,
            stamps,
            stamp: 0,
            sizes,
            frame: EMPTY,
            live: Vec::new(alloc),
            around: Around::NOTHING,
            breaks: Vec::new(alloc),
            continues: Vec::new(alloc),
            cases: Vec::new(alloc),
            arguments: Vec::new(alloc),
            items: Vec::new(alloc),
            taken: Vec::new(alloc),
            was: Vec::new(alloc),
            passed: Vec::new(alloc),
            joined: Vec::new(alloc),
            sizes_taken: Vec::new(alloc),
            folded: Vec::new(alloc),
            copied: Vec::new(alloc),
            first_copied: 0,
            numbered: vec![in alloc; 0u32; unit.variables.len()]?,
            level: 1,
            levels: 1,
            lasts: Vec::new(alloc),
            nested: Vec::new(alloc),
            site: 0,
            sites: Vec::new(alloc),
            wanted: None,
            gives: Sort::VOID,
            repeats: false,
            team: Team::Nothing,
            whose: Whose::Caller,
            ends: Vec::new(alloc),
            kept: Vec::new(alloc),
            has_team: false,
            apart: Vec::new(alloc),
            binds: Vec::new(alloc),
            bodies: 0,
            making: Vec::new(alloc),
            behind: Vec::new(alloc),
            orphans: Vec::new(alloc),
            labels: Labels::new(alloc),
            flags: 0,
            seed: 0,
            has_numbers: false,
            asks_number: false,
            has_final: false,
            is_untouched,
            untouched: Vec::new(alloc),
            is_random: false,
            follows_letters: false,
            writes_letters: false,
        })
    }

    /// The objects of variables that live as long as the program begin, each with its number.
    fn globals(&mut self) -> Result<Vec<u32>, Fault> {
        let mut globals = Vec::new(self.alloc);
        let unit = self.unit;
        let mut number = 0u32;
        let slot = self.fresh()?;
        for variable in unit.variables.iter() {
            if is_global(variable) {
                self.global(number, variable, globals.len(), slot)?;
                globals.push(number)?;
            }
            number = number.saturating_add(1);
        }
        self.flags = self.hidden(globals.len(), FLAGS, slot)?;
        self.seed = self.hidden(globals.len().saturating_add(1), 1, slot)?;
        Ok(globals)
    }

    fn global(
        &mut self,
        number: u32,
        variable: &Variable,
        object: usize,
        slot: u32,
    ) -> Result<(), Fault> {
        let at = variable.at;
        self.site = at;
        if variable.storage == Storage::Threadprivate {
            return Err(Fault::Refused(at, Why::Threadprivate));
        }
        if variable.is_atomic {
            return Err(Fault::Refused(at, Why::Atomic));
        }
        if let Some(initial) = &variable.initial {
            self.layouts.complete(self.unit, number, initial);
        }
        let sort = self.sort_of(number);
        let cells = match self.layouts.extent(self.unit, sort) {
            Some(extent) => extent.cells,
            None => match variable.storage {
                Storage::Extern => 0,
                _ => return Err(Fault::Refused(at, Why::Incomplete)),
            },
        };
        let Ok(object) = u32::try_from(object) else {
            return Err(Fault::Refused(at, Why::Length));
        };
        self.hold(number, Held::Object(object));
        let zero = variable.storage != Storage::Extern;
        self.emit(Form::Begin(slot, cells, number, zero))?;
        Ok(())
    }

    /// An object that no variable names.
    fn hidden(&mut self, object: usize, cells: u32, slot: u32) -> Result<u32, Fault> {
        let name = self.name_at(0);
        self.emit(Form::Begin(slot, cells, name, true))?;
        match u32::try_from(object) {
            Ok(object) => Ok(object),
            Err(_) => Err(Fault::Refused(0, Why::Length)),
        }
    }

    /// Their initial values.
    fn starts(&mut self) -> Result<(), Fault> {
        let unit = self.unit;
        let mark = self.frame.next;
        let mut number = 0u32;
        for variable in unit.variables.iter() {
            if is_global(variable)
                && let Some(initial) = &variable.initial
            {
                self.start(number, variable.at, initial)?;
                self.frame.next = mark;
            }
            number = number.saturating_add(1);
        }
        Ok(())
    }

    fn start(&mut self, variable: u32, at: u32, initial: &Initial) -> Result<(), Fault> {
        let aim = self.aim_variable(at, variable)?;
        self.initial(
            DEEPEST,
            Aim {
                way: Way::Own,
                ..aim
            },
            initial,
        )
    }

    /// The run: objects begin, and a function is called, behind so many words of a command.
    fn run(&mut self, entry: u32, in_team: bool, words: u32) -> Result<(Vec<u32>, u32), Fault> {
        let globals = self.globals()?;
        let seed = self.seed;
        let place = self.fresh()?;
        self.emit(Form::Address(place, seed, 0))?;
        let one = self.number(1)?;
        let words = self.number(u64::from(words))?;
        self.emit(Form::StoreOwn(0, place, words))?;
        if !in_team {
            self.set_flag(0, ALONE, one)?;
        }
        self.set_flag(0, COUNT, one)?;
        self.starts()?;
        let first = self.frame.next;
        let parameters = match self.unit.functions.get(entry as usize) {
            Some(function) => function.parameters.len(),
            None => 0,
        };
        for _parameter in 0..parameters.max(1) {
            self.unknown()?;
        }
        if !in_team && parameters > 0 {
            // `argc`, which other runs may have otherwise: it comes from memory
            self.emit(Form::LoadOwn(0, first, place))?;
        }
        let at = match self.unit.functions.get(entry as usize) {
            Some(function) => function.at,
            None => 0,
        };
        self.site = at;
        if !in_team && parameters > 1 {
            self.words(at, first.saturating_add(1))?;
        }
        self.emit(Form::Call(at, entry, first))?;
        self.emit(Form::Stop)?;
        Ok((globals, self.frame.most))
    }

    /// `argv`: the first word is some string, and of the others nothing is known.
    fn words(&mut self, at: u32, to: u32) -> Result<(), Fault> {
        let name = self.name_at(at);
        self.emit(Form::Begin(to, MOST_WORDS, name, false))?;
        let word = self.fresh()?;
        self.emit(Form::Begin(word, MOST_WORDS, name, false))?;
        self.emit(Form::StoreOwn(at, to, word))?;
        Ok(())
    }

    fn functions(&mut self, team: Team) -> Result<(), Fault> {
        let unit = self.unit;
        let mut number = 0u32;
        for function in unit.functions.iter() {
            self.site = function.at;
            self.frame = EMPTY;
            self.team = team;
            let start = self.here()?;
            match &function.body {
                Some(body) => {
                    self.making.push(number)?;
                    self.body(function, body)?;
                    let _ = self.making.pop();
                }
                None => {
                    let slot = self.unknown()?;
                    let _ = slot;
                    self.emit(Form::Return)?;
                }
            }
            let slots = self.frame.most.max(1);
            if let Some(place) = self.functions.get_mut(number as usize) {
                *place = Function { start, slots };
            }
            number = number.saturating_add(1);
        }
        Ok(())
    }

    fn body(&mut self, function: &ot_exec_tree::Function, body: &Stmt) -> Result<(), Fault> {
        let gives = Sort::of(self.unit, function.kind).given(self.unit);
        self.gives = gives.unwrap_or(Sort::INT);
        self.frame.returns = Returns::ToCaller;
        self.frame.floor = self.live.len();
        let floor = self.frame.floor;
        for _parameter in function.parameters.iter() {
            self.fresh()?;
        }
        self.begins_parameters(function, 0)?;
        let text = self.labels.begins();
        self.statement(DEEPEST, body)?;
        self.labels.ends(text)?;
        self.end_since(function.at, floor)?;
        self.emit(Form::Return)?;
        Ok(())
    }

    /// The parameters of a function, whose values are in slots one after another.
    pub(crate) fn begins_parameters(
        &mut self,
        function: &ot_exec_tree::Function,
        first: u32,
    ) -> Result<(), Fault> {
        let mut slot = first;
        for parameter in function.parameters.iter() {
            self.begins_parameter(function.at, *parameter, slot)?;
            slot = slot.saturating_add(1);
        }
        for parameter in function.parameters.iter() {
            let sort = self.sort_of(*parameter);
            self.measure(16, function.at, sort)?;
        }
        Ok(())
    }

    /// A parameter, whose value is in this slot.
    fn begins_parameter(&mut self, at: u32, variable: u32, value: u32) -> Result<(), Fault> {
        if !self.sharing.is_object(variable) {
            self.hold(variable, Held::Slot(value));
            return Ok(());
        }
        let sort = self.sort_of(variable);
        let slot = self.begin(at, variable, false)?;
        let to = Aim {
            slot,
            sort,
            way: Way::Own,
            site: at,
            lends: false,
            within: None,
        };
        match self.class(sort) {
            Class::Record(_) => {
                let from = crate::maker::Val {
                    slot: value,
                    sort,
                    own: false,
                    within: None,
                };
                let extent = self.extent(at, sort)?;
                self.copy_cells(to, from, extent.cells)?;
            }
            _ => self.store_scalar(to, value)?,
        }
        self.hold(variable, Held::Place(slot));
        Ok(())
    }
}

const EMPTY: Frame = Frame {
    next: 0,
    most: 1,
    floor: 0,
    returns: Returns::Nowhere,
};

/// The function that begins: `main`, or the only one that has constructs and that no other calls.
fn entry_of(unit: &Unit, known: &[Option<Known>]) -> Option<(u32, bool)> {
    let mut number = 0u32;
    for function in unit.functions.iter() {
        if function.body.is_some() && is_main(known, function.name) {
            return Some((number, false));
        }
        number = number.saturating_add(1);
    }
    None
}

fn is_main(known: &[Option<Known>], name: u32) -> bool {
    matches!(known.get(name as usize), Some(Some(Known::Main)))
}

/// Whether the number of a thread is asked for, or how many there are.
fn asks_numbers(known: &[Option<Known>]) -> bool {
    known.iter().any(|one| matches!(one, Some(Known::ThreadNumber | Known::ThreadCount)))
}

/// The code of a unit, of which each name means this, run by a command of so many words.
pub fn translate(
    alloc: Global,
    unit: &Unit,
    known: &[Option<Known>],
    words: u32,
) -> Result<Translated, Fault> {
    let mut layouts = Layouts::of(alloc, unit)?;
    let sharing = Sharing::of(alloc, unit, &mut layouts)?;
    let (entry, is_alone) = match entry_of(unit, known) {
        Some(entry) => entry,
        None => match sharing.alone() {
            Some(entry) => (entry, true),
            None => return Err(Fault::Refused(0, Why::NoEntry)),
        },
    };
    let owned = owned_of(alloc, unit, known, &sharing, &layouts)?;
    let mut maker = Maker::empty(alloc, unit, known, &sharing, &owned, layouts)?;
    maker.has_final = sharing.has_final;
    maker.asks_number = asks_numbers(known);
    maker.has_numbers = sharing.has_threads && maker.asks_number;
    maker.binds = binding_functions(alloc, unit)?;
    let (globals, slots) = maker.run(entry, is_alone, words)?;
    maker.functions(if is_alone {
        Team::Nothing
    } else {
        Team::Called
    })?;
    Ok(Translated {
        code: Code {
            forms: maker.forms,
            slots,
            functions: maker.functions,
            changing: Vec::new(alloc),
        },
        sites: maker.sites,
        globals,
        untouched: maker.untouched,
        entry,
        is_alone,
        is_random: maker.is_random,
        follows_letters: maker.follows_letters && maker.writes_letters,
        has_team: maker.has_team,
        apart: maker.apart,
        orphans: maker.orphans,
    })
}
