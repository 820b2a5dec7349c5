//! The run of code.
ghost use Rattle.std.specs.Prelude.{◌≡◌, ◌<◌, ◌≤◌, ◌+◌, ◌^◌, ◌∷◌, [], length, IfOk, Ok, Err};
ghost use Rattle.ot_exec_outline.specs.Followed.{list_answer};
ghost use Rattle.ot_exec_state.specs.Results.{Gives};
ghost use Rattle.ot_exec_machine.specs.Runs.{next, step_told, fault_in, run_steps, first_state, few, run_of, TellsEvents, LeadsTo};
ghost use Rattle.ot_exec_machine.specs.State.{from};
ghost use Rattle.ot_exec_machine.specs.Steps.{step};
ghost use Rattle.ot_exec_state.specs.Trail.{trail, context};
ghost use Rattle.ot_exec_machine.specs.View.{machine_state};
ghost use Rattle.ot_exec_state.specs.View.{trail_of};
ghost use Rattle.ot_exec_machine.specs.declared.run.Stopped.TheVariants.{By};
ghost use Rattle.ot_exec_state.specs.declared.trail.Entered.TheVariants as entered;

use crate::machine::Machine;
use ot_exec_code::{Code, Form};
use ot_exec_outline::Noted;
use ot_exec_state::{
    Context, Entered, Fault, Halt, Limits, Locks, Memory, Nest, Object, Reason, Row, Slots, Trail,
};
use std::alloc::{AllocError, Global};

/// A run: the fault that ended it, if one did, how many questions were asked, the events, for each a row and the number of the set of
/// locks that it holds, these sets, of which the first is empty, and the contexts and objects that are named. Where it has a fault, it has no
/// events.
#[derive(Debug, Drop)]
pub struct Run {
    pub fault: Option<Fault>,
    pub asked: usize,
    pub log: Vec<Noted>,
    pub rows: Vec<Row>,
    pub held: Vec<u32>,
    pub sets: Vec<Vec<u32>>,
    pub contexts: Vec<Context>,
    pub objects: Vec<Object>,
}

/// What stops a run.
#[derive(Debug, Drop)]
pub(crate) enum Stopped {
    Memory,
    By(Fault),
}

/// The answer to a question; to one behind these it is no.
fn answered(answers: &[bool], question: usize) -> bool
    ensures { result ≡ list_answer answers.now question }
{
    match answers.get(question) {
        Some(answer) => *answer,
        None => false,
    }
}

impl Machine {
    fn fault(&self, reason: Reason, asked: usize) -> Stopped
        ensures { result ≡ By (fault_in (machine_state self.now) asked reason) }
    {
        Stopped::By(Fault {
            reason,
            at: self.at,
            context: self.trail.context,
            asked,
        })
    }

    /// Executes the next form behind so many questions, and tells how many there are behind it.
    #[tactic(auto, unfolding(crate::specs::Runs::next))]
    fn next(
        &mut self,
        alloc: Global,
        code: &Code,
        limits: Limits,
        answers: &[bool],
        asked: usize,
    ) -> Result<usize, Stopped>
        requires { asked < 2 ^ 63 }
        ensures told { LeadsTo (λ more. (machine_state self.new, more)) result (next code.now limits (list_answer answers.now) asked (machine_state self.old)) }
        ensures one { IfOk result (λ more. more ≤ asked + 1) }
    {
        match code.forms.get(self.at) {
            Some(form) => {
                if self.asks(form) {
                    let answer = answered(answers, asked);
                    self.execute(alloc, code, limits, form, answer, asked + 1)
                } else {
                    self.execute(alloc, code, limits, form, false, asked)
                }
            }
            None => Err(self.fault(Reason::Broken, asked)),
        }
    }

    /// Executes a form by an answer, behind so many questions.
    fn execute(
        &mut self,
        alloc: Global,
        code: &Code,
        limits: Limits,
        form: &Form,
        answer: bool,
        asked: usize,
    ) -> Result<usize, Stopped>
        requires { self.old.at < 2 ^ 63 }
        ensures told { LeadsTo (λ more. (machine_state self.new, more)) result
            (step_told (machine_state self.old) asked (step code.now limits form.now answer (from (self.old.at + 1) (machine_state self.old)))) }
        ensures asked { IfOk result (λ more. more ≡ asked) }
    {
        let at = self.at;
        let context = self.trail.context;
        self.at += 1;
        match self.step(alloc, code, limits, form, answer) {
            Ok(()) => Ok(asked),
            Err(Halt::Memory) => Err(Stopped::Memory),
            Err(Halt::For(reason)) => Err(Stopped::By(Fault {
                reason,
                at,
                context,
                asked,
            })),
        }
    }

    /// Executes forms until the run ends, and tells how many questions there were.
    fn go(
        &mut self,
        alloc: Global,
        code: &Code,
        limits: Limits,
        answers: &[bool],
    ) -> Result<usize, Stopped>
        ensures { LeadsTo (λ asked. (machine_state self.new, asked)) result (run_steps code.now limits (list_answer answers.now) limits.steps 0 (machine_state self.old)) }
    {
        let mut asked = 0;
        for _ in 0..limits.steps {
            asked = self.next(alloc, code, limits, answers, asked)?;
            if self.ended {
                return Ok(asked);
            }
        }
        Err(self.fault(Reason::TooManySteps, asked))
    }

    /// The state in which code begins.
    #[tactic(auto, unfolding(crate::specs::Runs::first_state))]
    fn new(alloc: Global, code: &Code, limits: Limits) -> Result<Machine, Halt>
        ensures { Gives machine_state result (first_state code.now limits) }
    {
        let mut slots = Slots {
            base: 0,
            values: Vec::new(alloc),
        };
        slots.enter(limits, 0, code.slots)?;
        let trail = first_trail(alloc)?;
        let locks = Locks::new(alloc)?;
        Ok(Machine {
            at: 0,
            slots,
            memory: Memory {
                objects: Vec::new(alloc),
                members: Vec::new(alloc),
            },
            trail,
            nest: Nest {
                frames: Vec::new(alloc),
                groups: Vec::new(alloc),
                parts: Vec::new(alloc),
            },
            locks,
            siblings: Vec::new(alloc),
            tasks: 0,
            ended: false,
        })
    }
}

/// Nothing has happened, in the context of the run.
fn first_trail(alloc: Global) -> Result<Trail, Halt>
    ensures { Gives trail_of result (Ok (trail 0 0 (context 0 0 entered.Run ∷ []) [] [] [] 0)) }
{
    let mut contexts = Vec::new(alloc);
    contexts.push(Context {
        outer: 0,
        site: 0,
        entered: Entered::Run,
    })?;
    Ok(Trail {
        task: 0,
        context: 0,
        contexts,
        rows: Vec::new(alloc),
        held: Vec::new(alloc),
        log: Vec::new(alloc),
        touches: 0,
    })
}

/// The run of code by these answers; to further questions the answer is no.
#[tactic(auto, unfolding(crate::specs::Runs::run_of))]
pub fn run_code(
    alloc: Global,
    code: &Code,
    limits: Limits,
    answers: &[bool],
) -> Result<Run, AllocError>
    ensures told { IfOk result (λ run. TellsEvents run (run_of code.now limits (list_answer answers.now))) }
    ensures few { IfOk result (λ run. length run.log.items < 2 ^ 32) }
{
    match Machine::new(alloc, code, limits) {
        Ok(machine) => run_from(alloc, code, limits, answers, machine),
        Err(Halt::Memory) => Err(AllocError),
        Err(Halt::For(reason)) => Ok(no_run(
            alloc,
            Fault {
                reason,
                at: 0,
                context: 0,
                asked: 0,
            },
        )),
    }
}

fn run_from(
    alloc: Global,
    code: &Code,
    limits: Limits,
    answers: &[bool],
    begun: Machine,
) -> Result<Run, AllocError>
    ensures told { IfOk result (λ r. TellsEvents r (few limits (run_steps code.now limits (list_answer answers.now) limits.steps 0 (machine_state begun)))) }
    ensures few { IfOk result (λ r. length r.log.items < 2 ^ 32) }
{
    let mut machine = begun;
    let gone = machine.go(alloc, code, limits, answers);
    let many = machine.trail.log.len() > limits.events as usize;
    let ended = Fault {
        reason: Reason::TooManyEvents,
        at: machine.at,
        context: machine.trail.context,
        asked: 0,
    };
    match gone {
        Ok(asked) if many => Ok(faulted(alloc, machine, Fault { asked, ..ended })),
        Ok(asked) => Ok(ended_by(machine, asked)),
        Err(Stopped::Memory) => Err(AllocError),
        Err(Stopped::By(fault)) => Ok(faulted(alloc, machine, fault)),
    }
}

/// A run that ended behind so many questions.
fn ended_by(machine: Machine, asked: usize) -> Run
    ensures told { TellsEvents result (Ok (machine_state machine, asked)) }
    ensures log { result.log.items ≡ machine.trail.log.items }
{
    let Machine {
        memory,
        trail,
        locks,
        ..
    } = machine;
    let Trail {
        contexts,
        rows,
        held,
        log,
        ..
    } = trail;
    let Memory { objects, .. } = memory;
    let Locks { sets, .. } = locks;
    Run {
        fault: None,
        asked,
        log,
        rows,
        held,
        sets,
        contexts,
        objects,
    }
}

/// A run that this fault stopped.
fn faulted(alloc: Global, machine: Machine, fault: Fault) -> Run
    ensures told { TellsEvents result (Err fault) }
    ensures none { result.log.items ≡ [] }
{
    let Machine { memory, trail, .. } = machine;
    let Trail { contexts, rows, .. } = trail;
    let Memory { objects, .. } = memory;
    Run {
        fault: Some(fault),
        asked: fault.asked,
        log: Vec::new(alloc),
        rows,
        held: Vec::new(alloc),
        sets: Vec::new(alloc),
        contexts,
        objects,
    }
}

/// A run that doesn't begin.
fn no_run(alloc: Global, fault: Fault) -> Run
    ensures told { TellsEvents result (Err fault) }
    ensures none { result.log.items ≡ [] }
{
    Run {
        fault: Some(fault),
        asked: fault.asked,
        log: Vec::new(alloc),
        rows: Vec::new(alloc),
        held: Vec::new(alloc),
        sets: Vec::new(alloc),
        contexts: Vec::new(alloc),
        objects: Vec::new(alloc),
    }
}
