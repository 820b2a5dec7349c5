//! Code that stands in words.
use ot_exec_code::{Code, Depends, Folded, Form, Function, Item, Kind, Operation, Width};
use ot_model::Fold;
use std::alloc::{AllocError, Global};

/// `int` of C.
const INT: Kind = Kind {
    width: Width::Bits32,
    signed: true,
};

/// The code of these forms, each a word and numbers, with `;` behind each. It has so many slots; functions are numbers in pairs: where each
/// begins, and how many slots it has. `changes` is no form: it names objects that tasks write under locks.
pub(crate) fn code_of(
    alloc: Global,
    slots: u32,
    functions: &[(u32, u32)],
    text: &str,
) -> Result<Code, AllocError> {
    let mut forms = Vec::new(alloc);
    let mut changing = Vec::new(alloc);
    for words in text.split(';') {
        let words = words.trim();
        if let Some(("changes", name)) = words.split_once(" ") {
            changing.push(name.parse::<u32>().unwrap_or(0))?;
        } else if !words.is_empty() {
            forms.push(form_of(alloc, words)?)?;
        }
    }
    let mut known = Vec::new(alloc);
    for function in functions {
        known.push(Function {
            start: function.0,
            slots: function.1,
        })?;
    }
    Ok(Code {
        forms,
        slots,
        functions: known,
        changing,
    })
}

/// How a task depends, by a number.
fn depends(number: u32) -> Depends {
    match number {
        0 => Depends::In,
        1 => Depends::InOut,
        2 => Depends::MutexInOutSet,
        _ => Depends::InOutSet,
    }
}

/// The numbers behind the first word.
#[derive(Drop)]
struct Numbers {
    all: Vec<u32>,
}

impl Numbers {
    fn at(&self, k: usize) -> u32 {
        match self.all.get(k) {
            Some(number) => *number,
            None => 0,
        }
    }

    fn items(&self, alloc: Global, first: usize) -> Result<Vec<Item>, AllocError> {
        let mut items = Vec::new(alloc);
        let mut k = first;
        for _ in 0..self.all.len() {
            if k < self.all.len() {
                items.push(Item {
                    mode: depends(self.at(k)),
                    slot: self.at(k.wrapping_add(1)),
                })?;
            }
            k = k.wrapping_add(2);
        }
        Ok(items)
    }

    fn folded(&self, alloc: Global, first: usize) -> Result<Vec<Folded>, AllocError> {
        let mut items = Vec::new(alloc);
        let mut k = first;
        for _ in 0..self.all.len() {
            if k < self.all.len() {
                items.push(Folded {
                    fold: Fold::Plus,
                    slot: self.at(k),
                    count: self.at(k.wrapping_add(1)),
                })?;
            }
            k = k.wrapping_add(2);
        }
        Ok(items)
    }
}

fn form_of(alloc: Global, text: &str) -> Result<Form, AllocError> {
    match text.split_once(" ") {
        Some((name, behind)) => {
            let numbers = numbers_of(alloc, behind)?;
            named_form(alloc, name, &numbers)
        }
        None => {
            let numbers = numbers_of(alloc, "")?;
            named_form(alloc, text, &numbers)
        }
    }
}

fn numbers_of(alloc: Global, text: &str) -> Result<Numbers, AllocError> {
    let mut all = Vec::new(alloc);
    for word in text.split(' ') {
        if let Ok(number) = word.parse::<u32>() {
            all.push(number)?;
        }
    }
    Ok(Numbers { all })
}

fn named_form(alloc: Global, name: &str, n: &Numbers) -> Result<Form, AllocError> {
    match operation_of(name) {
        Some(operation) => Ok(Form::Operate(n.at(0), operation, INT, n.at(1), n.at(2))),
        None => other_form(alloc, name, n),
    }
}

fn operation_of(name: &str) -> Option<Operation> {
    match name {
        "add" => Some(Operation::Add),
        "subtract" => Some(Operation::Subtract),
        "multiply" => Some(Operation::Multiply),
        "divide" => Some(Operation::Divide),
        "less" => Some(Operation::Less),
        "equal" => Some(Operation::Equal),
        _ => None,
    }
}

fn other_form(alloc: Global, name: &str, n: &Numbers) -> Result<Form, AllocError> {
    match name {
        "task" => Ok(Form::Task {
            site: n.at(0),
            first: n.at(1),
            slots: n.at(2),
            behind: n.at(3),
            when: if n.at(4) == 0 {
                None
            } else {
                Some(n.at(4).wrapping_sub(1))
            },
            items: n.items(alloc, 5)?,
        }),
        "waitfor" => Ok(Form::WaitFor(n.at(0), n.items(alloc, 1)?)),
        "group" => Ok(Form::Group(n.at(0), n.folded(alloc, 1)?)),
        _ => Ok(plain_form(name, n)),
    }
}

fn plain_form(name: &str, n: &Numbers) -> Form {
    match name {
        "number" => Form::Number(n.at(0), u64::from(n.at(1))),
        "unknown" => Form::Unknown(n.at(0)),
        "copy" => Form::Copy(n.at(0), n.at(1)),
        "address" => Form::Address(n.at(0), n.at(1), n.at(2)),
        "function" => Form::Function(n.at(0), n.at(1)),
        "advance" => Form::Advance(n.at(0), n.at(1), n.at(2), n.at(3), n.at(4)),
        "distance" => Form::Distance(n.at(0), n.at(1), n.at(2), n.at(3)),
        "begin" => Form::Begin(n.at(0), n.at(1), n.at(2), n.at(3) == 0),
        "allocate" => Form::Allocate(n.at(0), n.at(1), n.at(2), n.at(3), true),
        "end" => Form::End(n.at(0), n.at(1)),
        "load" => Form::Load(n.at(0), n.at(1), n.at(2)),
        "store" => Form::Store(n.at(0), n.at(1), n.at(2)),
        "readrange" => Form::ReadRange(n.at(0), n.at(1), n.at(2)),
        "writerange" => Form::WriteRange(n.at(0), n.at(1), n.at(2)),
        "jump" => Form::Jump(n.at(0)),
        "branch" => Form::Branch(n.at(0), n.at(1), n.at(2)),
        "repeat" => Form::Repeat(n.at(0), n.at(1), n.at(2)),
        "call" => Form::Call(n.at(0), n.at(1), n.at(2)),
        "callby" => Form::CallBy(n.at(0), n.at(1), n.at(2)),
        "return" => Form::Return,
        "finish" => Form::Finish,
        "wait" => Form::Wait(n.at(0)),
        "leave" => Form::Leave(n.at(0)),
        "lock" => Form::Lock(n.at(0), n.at(1)),
        "unlock" => Form::Unlock(n.at(0), n.at(1)),
        "joins" => Form::Joins(n.at(0), Fold::Plus, n.at(1)),
        "turn" => Form::Turn(n.at(0), n.at(1)),
        "context" => Form::Context(n.at(0)),
        "within" => Form::Within(n.at(0)),
        _ => Form::Stop,
    }
}
