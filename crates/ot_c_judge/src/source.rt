//! A C text, and what stands for it.
ghost use Rattle.std.specs.Prelude.{◌≡◌, IfOk, option_map, unwrap_or};
ghost use Rattle.ot_file_diagnosis.specs.Diagnoses.{place_in};

use crate::text_order::told_of;
use ot_file_diagnosis::Place;
use ot_model::ArrayShape;
use ot_race_order::Order;
use ot_why_place::{Turn, place_of};
use serde_json::Value;
use std::alloc::{AllocError, Global};

/// A C text, its name, and a request that runs a program which stands for it.
#[derive(Drop)]
pub(crate) struct Source<'a> {
    pub(crate) name: &'a str,
    pub(crate) text: &'a [u8],
    pub(crate) request: &'a Value,
    /// The arrays that the program names.
    pub(crate) arrays: &'a [ArrayShape],
    /// For each statement of the program, in the order of its text, the byte at which the C statement begins.
    pub(crate) places: &'a [usize],
    /// What orders the program's tasks as C orders those of the text.
    pub(crate) order: Order,
}

/// A place in the text, and the turns of the loops around it, the innermost first.
#[derive(Drop)]
pub(crate) struct Site<'a> {
    pub(crate) place: Place,
    pub(crate) turns: Vec<Turn<'a>>,
}

impl<'a> Source<'a> {
    ghost use Rattle.ot_why_place.specs.Spots.{place_by};
    ghost use Rattle.ot_c_judge.specs.TextOrder.{told_of};
    ghost use Rattle.ot_c_judge.specs.Sites.{site_at, site_of};
    ghost use Rattle.ot_c_judge.specs.SiteView.{site_by, source_by};

    /// Where the C statement stands that stands for the statement of this number.
    pub(crate) fn site_of(&self, alloc: Global, number: u32) -> Result<Site<'a>, AllocError>
        ensures { IfOk result (λ site. site_by site ≡ site_of (source_by self.now) number) }
    {
        let place = place_of(alloc, self.request, number)?;
        Ok(self.site_at(alloc, place))
    }

    fn site_at(&self, alloc: Global, place: Option<ot_why_place::Place<'a>>) -> Site<'a>
        ensures { site_by result ≡ site_at (source_by self.now) (option_map place_by place.entry) }
    {
        match place {
            Some(place) => Site {
                place: self.place_at(self.byte_at(place.path.as_slice())),
                turns: place.turns,
            },
            None => Site {
                place: self.place_at(0),
                turns: Vec::new(alloc),
            },
        }
    }

    /// The byte that is told beside the statement at a path.
    fn byte_at(&self, path: &[usize]) -> usize
        ensures { result ≡ unwrap_or (told_of (source_by self.now).bytes (source_by self.now).request path.now) 0 }
    {
        told_of(self.places, self.request, path).unwrap_or(0)
    }

    fn place_at(&self, byte: usize) -> Place
        ensures { result ≡ place_in self.now.text.now byte }
    {
        Place::at(self.text, byte)
    }
}
