use crate::assign::Assign;
use crate::frames::Frames;
use crate::leading::{Leading, condition_at};
use crate::part::Part;
use ot_model::{Decl, Expr};
use std::alloc::{AllocError, Global};
use std::marker::Model;
use std::sync::Arc;

/// What is left of a body: places in parts that others share, and whether the sets and folds that come first
/// are passed. Each branch that is gone into is one place more, whatever its length.
#[derive(Debug, Drop)]
pub struct Rest {
    frames: Frames,
    passed: bool,
}

impl Model for Rest {
    ghost use Rattle.std.specs.Coded.{codes};
    ghost use Rattle.ot_model.specs.Code.{body_code};
    ghost use Rattle.ot_model.specs.Tree.{Body};

    ghost Value = { Body };

    ghost coded = { Prim.hlevel (codes, body_code) };

    ghost use Rattle.ot_parts.specs.Left.{parts_left, rest_left, IsTrim};
    ghost use Rattle.ot_parts.specs.Parts.{parts_of};

    ghost view = { λ r. rest_left r.passed (parts_of (parts_left r.frames)) };

    ghost invariant = { λ r. IsTrim r.passed r.frames };
}

impl Rest {
    ghost use Rattle.std.specs.Prelude.{◌≡◌, ◌↔◌, ◌<◌, ◌^◌, ℕ, List, None, Some, IsTrue, IfOk, IfSome, OnOk, OnErr, MatchOption, option_map};
    ghost use Rattle.std.specs.Arc.{arc_value};
    ghost use Rattle.ot_model.specs.Names.{NamedIn};
    ghost use Rattle.ot_model.specs.Tree.{End, S};
    ghost use Rattle.ot_model.specs.Cells.{AreInOrder};
    ghost use Rattle.ot_model.specs.View.{expr_of};
    ghost use Rattle.ot_parts.specs.Assigns.{assigns_of, AreHeldBy};
    ghost use Rattle.ot_parts.specs.Parts.{leading, after_parts, test_of, control_next, past_control, branch_taken, part_of, parts_of, condition_of, weight};

    /// The whole body. It takes no memory.
    pub fn new(alloc: Global, body: Arc<Vec<Part>>) -> Rest
        ensures { result ≡ parts_of (arc_value body).items }
    {
        let mut frames = Frames::new(alloc, body);
        frames.trim(false);
        Rest {
            frames,
            passed: false,
        }
    }

    /// Whether nothing is left.
    pub fn is_empty(&self) -> bool
        ensures { IsTrue result ↔ self.now ≡ End }
    {
        match self.frames.next() {
            Some(part) => !part.comes(self.passed),
            None => true,
        }
    }

    /// What comes first, where the body declares this. It stays. Where one run is all that comes first, its
    /// sets and folds are shared and its cells copied; where a run goes on behind the end of a branch, the
    /// runs are joined by copying. What is left is to be there in arrays of some lengths.
    pub fn leading(&self, alloc: Global, own: Option<&Decl>) -> Result<Leading, AllocError>
        requires named { (lens : List ℕ) × NamedIn lens self.now }
        ensures assigns { IfOk result (λ l. l.assigns ≡ leading self.now) }
        ensures condition { IfOk result (λ l. option_map expr_of l.condition ≡ test_of (after_parts self.now)) }
        ensures held { IfOk result (λ l. AreHeldBy (option_map (λ o. o.now) own.entry) (leading self.now) (test_of (after_parts self.now)) (arc_value l.held)) }
        ensures ordered { IfOk result (λ l. AreInOrder (arc_value l.held)) }
    {
        match self.alone() {
            Some(part) => Leading::of_part(alloc, part, own),
            None => self.joined(alloc, own),
        }
    }

    /// The part whose run and condition are all that comes first, if there is one.
    fn alone(&self) -> Option<&Part>
        ensures run { IfSome result (λ p. (part_of p.now).run ≡ leading self.now) }
        ensures condition { IfSome result (λ p. condition_of (part_of p.now).control ≡ test_of (after_parts self.now)) }
    {
        if self.passed {
            return None;
        }
        let part = self.frames.next()?;
        if !part.has_control() && !self.frames.is_last() {
            return None;
        }
        Some(part)
    }

    /// The runs that come first, joined by copying.
    fn joined(&self, alloc: Global, own: Option<&Decl>) -> Result<Leading, AllocError>
        requires named { (lens : List ℕ) × NamedIn lens self.now }
        ensures assigns { IfOk result (λ l. l.assigns ≡ leading self.now) }
        ensures condition { IfOk result (λ l. option_map expr_of l.condition ≡ test_of (after_parts self.now)) }
        ensures held { IfOk result (λ l. AreHeldBy (option_map (λ o. o.now) own.entry) (leading self.now) (test_of (after_parts self.now)) (arc_value l.held)) }
        ensures ordered { IfOk result (λ l. AreInOrder (arc_value l.held)) }
    {
        let (run, condition) = self.gathered(alloc)?;
        Leading::of_run(alloc, run, condition, own)
    }

    /// Copies of the sets and folds that come first, and of the condition behind them.
    fn gathered(&self, alloc: Global) -> Result<(Vec<Assign>, Option<Expr>), AllocError>
        ensures run { IfOk result (λ g. assigns_of g.0.items ≡ leading self.now) }
        ensures condition { IfOk result (λ g. option_map expr_of g.1 ≡ test_of (after_parts self.now)) }
    {
        let mut run = Vec::new(alloc);
        if self.passed {
            let condition = condition_at(alloc, self.next_control())?;
            return Ok((run, condition));
        }
        let part = self.frames.gather(alloc, &mut run)?;
        let condition = condition_at(alloc, part)?;
        Ok((run, condition))
    }

    /// The part with the control statement that comes next, if no set or fold comes before one.
    pub fn next_control(&self) -> Option<&Part>
        ensures { MatchOption result (control_next self.now ≡ None) (λ p. (x : S) × ((part_of p.now).control ≡ Some x) × (control_next self.now ≡ Some x)) }
    {
        self.frames.shown(self.passed)
    }

    /// The weight of what is left. It takes no memory.
    pub fn weigh(&self) -> u64
        requires { weight self.now < 2 ^ 64 }
        ensures { result ≡ weight self.now }
    {
        self.frames.weigh()
    }

    /// Passes the sets and folds that come first. It takes no memory.
    pub fn pass(&mut self)
        ensures { self.new ≡ after_parts self.old }
    {
        self.frames.trim(true);
        self.passed = true;
    }

    /// Goes past the control statement that comes next, if one does. It takes no memory.
    pub fn pass_control(&mut self)
        ensures { self.new ≡ past_control self.old }
    {
        if let Some(_) = self.frames.shown(self.passed) {
            self.frames.advance();
            self.passed = false;
            self.frames.trim(false);
        }
    }

    /// Goes into one body of an `if` that comes next, if one does. Where memory is refused, it stays.
    pub fn branch(&mut self, taken: bool) -> Result<(), AllocError>
        ensures branched { OnOk result (self.new ≡ branch_taken taken self.old) }
        ensures same { OnErr result (self.new ≡ self.old) }
    {
        let Some(part) = self.frames.shown(self.passed) else {
            return Ok(());
        };
        let Some(body) = part.branch(taken)? else {
            return Ok(());
        };
        self.frames.go_into(body)?;
        self.passed = false;
        self.frames.trim(false);
        Ok(())
    }
}
