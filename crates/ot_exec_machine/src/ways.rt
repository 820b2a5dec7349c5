//! The ways of code, by the questions that it asks.
ghost use Rattle.std.specs.Prelude.{◌≡◌};

use crate::run::run_code;
use ot_exec_code::Code;
use ot_exec_outline::{Asks, OneWay};
use ot_exec_state::Limits;
use std::alloc::{AllocError, Global};

/// Code, and how far it may run.
#[derive(Drop)]
pub struct Ways<'a> {
    pub code: &'a Code,
    pub limits: Limits,
}

impl<'a> Asks for Ways<'a> {
    ghost use Rattle.ot_exec_machine.specs.Runs.{run_of, run_events_of, asked_in};
    ghost use Rattle.ot_exec_machine.specs.Stable.{stable};

    ghost events_by = { λ w answers. run_events_of (run_of w.code.now w.limits answers) };

    ghost asked_by = { λ w answers. asked_in (run_of w.code.now w.limits answers) };

    fn way(&self, alloc: Global, answers: &[bool]) -> Result<OneWay, AllocError> {
        let run = run_code(alloc, self.code, self.limits, answers)?;
        Ok(OneWay {
            log: run.log,
            asked: run.asked,
        })
    }

    ghost stable = { λ w. stable w.code.now w.limits };
}
