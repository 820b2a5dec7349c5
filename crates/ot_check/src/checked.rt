ghost use Rattle.std.specs.Prelude.{◌≡◌};
ghost use Rattle.std.specs.Arc.{arc_value};
ghost use Rattle.std.specs.Coded.{Coded-set};
ghost use Rattle.ot_model.specs.Code.{body_code};
ghost use Rattle.ot_model.specs.Programs.{expanded_of};
ghost use Rattle.ot_model.specs.View.{stmts_of};
ghost use Rattle.ot_parts.specs.Parts.{parts_of};
ghost use Rattle.ot_check.specs.Discipline.{IsDisciplined};

use ot_model::Program;
use ot_parts::Part;
use std::sync::Arc;

/// A program that can't race: no statement of it is an offence on any path.
#[derive(Debug, Drop)]
pub struct Checked {
    pub program: Program,
    /// The same body in parts that its jobs share.
    pub parts: Arc<Vec<Part>>,
    ghost disciplined: { IsDisciplined (expanded_of program) },
    ghost prepared: { parts_of (arc_value parts).items ≡ stmts_of program.body.items } by { Coded-set body_code (parts_of (arc_value parts).items) (stmts_of program.body.items) },
}
