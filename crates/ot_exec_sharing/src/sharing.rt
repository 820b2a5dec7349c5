//! What constructs share and copy, and which variables need objects.
use crate::attribute::How;
use crate::fault::Fault;
use crate::walk::Walk;
use ot_exec_layout::Layouts;
use ot_exec_tree::Unit;
use std::alloc::Global;

/// A variable that a construct has from outside.
#[derive(Clone, Copy, Debug, PartialEq, Eq)]
pub struct Capture {
    pub variable: u32,
    pub how: How,
}

/// A construct, by the token of its directive.
#[derive(Drop)]
pub struct Captured {
    pub at: u32,
    pub captures: Vec<Capture>,
}

/// Of a unit: which variables need an object, by their numbers, and what its constructs have from outside, in the text's order.
#[derive(Drop)]
pub struct Sharing {
    pub objects: Vec<bool>,
    pub constructs: Vec<Captured>,
    /// By function: whether another one names it.
    pub named: Vec<bool>,
    /// By function: whether constructs stand in it.
    pub has_constructs: Vec<bool>,
    /// Whether a `final` clause stands anywhere, and whether a parallel region that several threads execute.
    pub has_final: bool,
    pub has_threads: bool,
}

impl Sharing {
    /// Arrays whose length is that of their initial values get it.
    pub fn of(alloc: Global, unit: &Unit, layouts: &mut Layouts) -> Result<Sharing, Fault> {
        let mut walk = Walk::over(alloc, unit, layouts)?;
        let mut number = 0u32;
        for function in unit.functions.iter() {
            if let Some(body) = &function.body {
                walk.function(number, body)?;
            }
            number = number.saturating_add(1);
        }
        Ok(walk.end())
    }

    /// The only function that has constructs and that no other names.
    pub fn alone(&self) -> Option<u32> {
        let mut found = None;
        let mut number = 0u32;
        for (has, named) in self.has_constructs.iter().zip(self.named.iter()) {
            if *has && !*named {
                if found.is_some() {
                    return None;
                }
                found = Some(number);
            }
            number = number.saturating_add(1);
        }
        found
    }

    /// Whether the variable of this number needs an object.
    pub fn is_object(&self, variable: u32) -> bool {
        self.objects.get(variable as usize).copied().unwrap_or(true)
    }

    /// What the construct at this token has from outside. A variable may stand there twice.
    pub fn captures(&self, at: u32) -> &[Capture] {
        let place = self
            .constructs
            .partition_point(|construct| construct.at < at);
        match self.constructs.get(place) {
            Some(found) => {
                if found.at == at {
                    found.captures.as_slice()
                } else {
                    &[]
                }
            }
            None => &[],
        }
    }
}
