//! Macros, replaced (ISO C11, sections 6.10.3.1 and 6.10.3.4).
use crate::arguments::arguments;
use crate::macros::Macro;
use crate::reader::Reader;
use ot_exec_lexemes::{Mark, Origin, Raw, RawKind, ReadError, Why};

/// How deep macros stand in arguments of macros.
pub(crate) const MAX_DEPTH: u32 = 60;

/// How many steps replacing tokens takes at most.
const MOST: u32 = 4_000_000;

/// The place of a name among parameters.
fn place_of(name: u32, parameters: &[u32]) -> Option<usize> {
    parameters.iter().position(|other| *other == name)
}

/// From where what a macro became comes, where that is told.
fn origin_of(is_of_text: bool, name: u32, at: usize) -> Option<Origin> {
    if is_of_text {
        Some(Origin { name, at })
    } else {
        None
    }
}

fn is_mark(raw: Option<&Raw>, mark: Mark) -> bool {
    match raw {
        Some(raw) => raw.kind == RawKind::Mark(mark),
        None => false,
    }
}

/// The parameter that a token names.
fn parameter(raw: Option<&Raw>, parameters: &[u32]) -> Option<usize> {
    match raw {
        Some(raw) => match raw.kind {
            RawKind::Name(name) => place_of(name, parameters),
            _ => None,
        },
        None => None,
    }
}

impl Reader<'_> {
    /// The tokens in which no macro is left.
    #[cycle(expand)]
    pub(crate) fn expand(&mut self, raws: &[Raw], depth: u32) -> Result<Vec<Raw>, ReadError> {
        let at = match raws.first() {
            Some(raw) => raw.at,
            None => 0,
        };
        if depth == 0 {
            return Err(ReadError::new(at, Why::TooMuch));
        }
        let mut made = Vec::new(self.alloc);
        let mut todo = Vec::new(self.alloc);
        for raw in raws.iter().rev() {
            todo.push(*raw)?;
        }
        for _ in 0..MOST {
            let Some(raw) = todo.pop() else {
                return Ok(made);
            };
            match self.macro_at(&raw, &todo)? {
                None => made.push(raw)?,
                Some((name, it)) => self.replace(&raw, name, it, &mut todo, depth - 1)?,
            }
        }
        Err(ReadError::new(at, Why::TooMuch))
    }

    /// The macro for which a token stands, with these behind it.
    fn macro_at(&self, raw: &Raw, todo: &[Raw]) -> Result<Option<(u32, Macro)>, ReadError> {
        let RawKind::Name(name) = raw.kind else {
            return Ok(None);
        };
        let Some(it) = self.macros.get(&name) else {
            return Ok(None);
        };
        let is_call = it.parameters.is_some();
        if self.hidden.has(raw.hidden, name) || (is_call && !is_mark(todo.last(), Mark::Open)) {
            return Ok(None);
        }
        Ok(Some((name, it.copy(self.alloc)?)))
    }

    /// Puts what a macro stands for in its place.
    #[cycle(expand)]
    fn replace(
        &mut self,
        raw: &Raw,
        name: u32,
        it: Macro,
        todo: &mut Vec<Raw>,
        depth: u32,
    ) -> Result<(), ReadError> {
        let made = match &it.parameters {
            None => it.body.as_slice().to_vec(self.alloc)?,
            Some(parameters) => {
                let _ = todo.pop();
                let given = arguments(self.alloc, raw.at, &it, parameters.len(), todo)?;
                self.substituted(&it.body, parameters, &given, depth)?
            }
        };
        let made = self.pasted(made)?;
        self.put_back(raw, name, it.is_of_text, &made, todo)
    }

    /// Puts tokens that a macro became before those that are left.
    fn put_back(
        &mut self,
        raw: &Raw,
        name: u32,
        is_of_text: bool,
        made: &[Raw],
        todo: &mut Vec<Raw>,
    ) -> Result<(), ReadError> {
        let set = self.hidden.with(raw.hidden, name)?;
        for one in made.iter().rev() {
            if self.left == 0 {
                return Err(ReadError::new(raw.at, Why::TooMuch));
            }
            self.left -= 1;
            let hidden = if one.hidden == 0 {
                set
            } else {
                self.hidden.with(one.hidden, name)?
            };
            todo.push(Raw {
                at: raw.at,
                hidden,
                is_first: false,
                origin: raw.origin.or(origin_of(is_of_text, name, one.at)),
                ..*one
            })?;
        }
        Ok(())
    }

    /// The body of a macro with arguments in the place of its parameters.
    #[cycle(expand)]
    fn substituted(
        &mut self,
        body: &[Raw],
        parameters: &[u32],
        given: &[Vec<Raw>],
        depth: u32,
    ) -> Result<Vec<Raw>, ReadError> {
        let mut whole = Vec::new(self.alloc);
        for argument in given {
            whole.push(self.expand(argument, depth)?)?;
        }
        let mut made = Vec::new(self.alloc);
        for number in 0..body.len() {
            self.substitute(
                &body[number..],
                number > 0 && is_mark(body.get(number - 1), Mark::Paste),
                number > 0 && is_mark(body.get(number - 1), Mark::Hash),
                parameters,
                given,
                &whole,
                &mut made,
            )?;
        }
        Ok(made)
    }

    /// Puts what stands for the first of these tokens behind the others.
    fn substitute(
        &mut self,
        body: &[Raw],
        is_pasted: bool,
        is_quoted: bool,
        parameters: &[u32],
        given: &[Vec<Raw>],
        whole: &[Vec<Raw>],
        made: &mut Vec<Raw>,
    ) -> Result<(), ReadError> {
        let Some(first) = body.first() else {
            return Ok(());
        };
        if is_mark(Some(first), Mark::Hash) && parameter(body.get(1), parameters).is_some() {
            return Ok(());
        }
        let Some(place) = parameter(Some(first), parameters) else {
            made.push(*first)?;
            return Ok(());
        };
        let is_near = is_pasted || is_mark(body.get(1), Mark::Paste);
        let lists = if is_near || is_quoted { given } else { whole };
        let Some(list) = lists.get(place) else {
            return Ok(());
        };
        if is_quoted {
            made.push(self.text_of(list, first)?)?;
        } else {
            made.extend_from_slice(list)?;
        }
        Ok(())
    }
}
