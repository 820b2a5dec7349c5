use crate::same::same_test;
use ot_model::{Cell, Decl, Expr, Fold};
use ot_parts::{Leading, Part, Rest};
use std::alloc::{AllocError, Global};
use std::mem;
use std::sync::Arc;

/// A group that is open: its number, the operation and the cells of its reduction, and what stands behind
/// its end.
#[derive(Debug, Drop)]
pub(crate) struct OpenGroup {
    pub(crate) group: u32,
    op: Fold,
    cells: Vec<Cell>,
    behind: Rest,
}

/// What a task has left in the innermost open group's body, and the open groups, the innermost last.
#[derive(Debug, Drop)]
pub(crate) struct Place {
    rest: Rest,
    pub(crate) groups: Vec<OpenGroup>,
}

impl Place {
    ghost use Rattle.std.specs.Prelude.{◌≡◌, ◌+◌, ◌<◌, ◌^◌, ◌↔◌, ◌∷◌, [], ℕ, List, None, Some, IsTrue, OnOk, OnErr, IfOk, MatchOption, map, option_map};
    ghost use Rattle.std.specs.Arc.{arc_value};
    ghost use Rattle.ot_model.specs.Names.{NamedIn};
    ghost use Rattle.ot_model.specs.Tree.{End, S};
    ghost use Rattle.ot_model.specs.Cells.{AreInOrder};
    ghost use Rattle.ot_model.specs.View.{expr_of};
    ghost use Rattle.ot_parts.specs.Parts.{branch_taken, control_next, past_control, part_of, parts_of};
    ghost use Rattle.ot_parts.specs.Assigns.{AreHeldBy};
    ghost use Rattle.ot_job_task.specs.RegionView.{standing_of};
    ghost use Rattle.ot_job_task.specs.Pieces.{passed_end, leading, after_parts, test_of, left_group};
    ghost use Rattle.ot_job_task.specs.Regions.{weight, weight_behind, weight_left};

    /// At the beginning of a body. It takes no memory.
    pub(crate) fn new(alloc: Global, body: Arc<Vec<Part>>) -> Place
        ensures { standing_of result ≡ record { rest = parts_of (arc_value body).items; groups = [] } }
    {
        Place {
            rest: Rest::new(alloc, body),
            groups: Vec::new(alloc),
        }
    }

    /// Whether nothing is left in the innermost body.
    pub(crate) fn is_at_end(&self) -> bool
        ensures { IsTrue result ↔ (standing_of self.now).rest ≡ End }
    {
        self.rest.is_empty()
    }

    /// The part with the control statement that comes next in the innermost body, if no set or fold comes
    /// before one.
    pub(crate) fn next_control(&self) -> Option<&Part>
        ensures { MatchOption result (control_next (standing_of self.now).rest ≡ None)
            (λ p. (x : S) × ((part_of p.now).control ≡ Some x) × (control_next (standing_of self.now).rest ≡ Some x)) }
    {
        self.rest.next_control()
    }

    /// The numbers of the groups that are open, the innermost first.
    pub(crate) fn group_numbers(&self, alloc: Global) -> Result<Vec<u32>, AllocError>
        ensures { IfOk result (λ numbers. numbers.items ≡ map (λ o. o.group) (standing_of self.now).groups) }
    {
        let mut numbers = Vec::with_capacity(alloc, self.groups.len())?;
        for group in &self.groups {
            numbers.push(group.group)?;
        }
        numbers.reverse();
        Ok(numbers)
    }

    /// Goes past the control statement that comes next, if one does. It takes no memory.
    pub(crate) fn pass_control(&mut self)
        ensures { standing_of self.new ≡ record (standing_of self.old) { rest = past_control (standing_of self.old).rest } }
    {
        self.rest.pass_control();
    }

    /// Goes into one body of an `if` that comes next, if one does. Where memory is refused, it stays.
    pub(crate) fn branch(&mut self, taken: bool) -> Result<(), AllocError>
        ensures branched { OnOk result (standing_of self.new ≡ record (standing_of self.old) { rest = branch_taken taken (standing_of self.old).rest }) }
        ensures same { OnErr result (standing_of self.new ≡ standing_of self.old) }
    {
        self.rest.branch(taken)
    }

    /// Goes past the control statement that comes next into the body of a group. Where memory is refused, it
    /// stays.
    pub(crate) fn enter(
        &mut self,
        alloc: Global,
        group: u32,
        op: Fold,
        cells: Vec<Cell>,
        body: Arc<Vec<Part>>,
    ) -> Result<(), AllocError>
        ensures entered { OnOk result (standing_of self.new ≡ record {
          rest = parts_of (arc_value body).items;
          groups = record { group = group; op = op; cells = cells.items; behind = past_control (standing_of self.old).rest } ∷ (standing_of self.old).groups;
        }) }
        ensures same { OnErr result (standing_of self.new ≡ standing_of self.old) }
    {
        self.groups.reserve(1)?;
        self.rest.pass_control();
        let behind = mem::replace(&mut self.rest, Rest::new(alloc, body));
        self.groups.push_reserved(OpenGroup {
            group,
            op,
            cells,
            behind,
        });
        Ok(())
    }

    /// Whether this is the condition of the `if` that comes next, or there is none.
    pub(crate) fn has_test(&self, test: Option<&Expr>) -> bool
        ensures { IsTrue result ↔ option_map (λ e. expr_of e.now) test.entry ≡ test_of (standing_of self.now).rest }
    {
        same_test(test, self.test())
    }

    /// The condition of the `if` that comes next.
    fn test(&self) -> Option<&Expr>
        ensures { option_map (λ e. expr_of e.now) result ≡ test_of (standing_of self.now).rest }
    {
        match self.rest.next_control() {
            Some(part) => part.condition(),
            None => None,
        }
    }

    /// What comes first once the task goes on, where its body declares this: behind the end of the innermost
    /// open group where that is reached.
    pub(crate) fn leading(&self, alloc: Global, own: Option<&Decl>) -> Result<Leading, AllocError>
        requires named { (lens : List ℕ) × NamedIn lens (passed_end (standing_of self.now)).rest }
        ensures assigns { IfOk result (λ l. l.assigns ≡ leading (passed_end (standing_of self.now)).rest) }
        ensures condition { IfOk result (λ l. option_map expr_of l.condition ≡ test_of (after_parts (passed_end (standing_of self.now)).rest)) }
        ensures held { IfOk result (λ l. AreHeldBy (option_map (λ o. o.now) own.entry) (leading (passed_end (standing_of self.now)).rest) (test_of (after_parts (passed_end (standing_of self.now)).rest)) (arc_value l.held)) }
        ensures ordered { IfOk result (λ l. AreInOrder (arc_value l.held)) }
    {
        self.awake().leading(alloc, own)
    }

    /// What is left of the innermost body once the task goes on.
    fn awake(&self) -> &Rest
        ensures { result.now ≡ (passed_end (standing_of self.now)).rest }
    {
        if self.is_at_end() {
            if let Some(group) = self.groups.last() {
                return &group.behind;
            }
        }
        &self.rest
    }

    /// Passes the end of the innermost open group where it is reached, and the sets and folds that come
    /// then. It takes no memory.
    pub(crate) fn go_on(&mut self)
        ensures { standing_of self.new ≡ record (passed_end (standing_of self.old)) { rest = after_parts (passed_end (standing_of self.old)).rest } }
    {
        self.pass_end();
        self.rest.pass();
    }

    /// Passes the end of the innermost open group where it is reached. It takes no memory.
    fn pass_end(&mut self)
        ensures { standing_of self.new ≡ passed_end (standing_of self.old) }
    {
        if self.is_at_end() {
            self.leave();
        }
    }

    /// Passes the end of the innermost open group, which has nothing left. It takes no memory.
    fn leave(&mut self)
        ensures { standing_of self.new ≡ left_group (standing_of self.old) }
    {
        if let Some(group) = self.groups.pop() {
            self.rest = group.behind;
        }
    }

    /// The weight of what is left, with a piece of it out or not. It takes no memory.
    pub(crate) fn weigh(&self, out: bool) -> u64
        requires { weight (standing_of self.now).rest + weight_behind (standing_of self.now).groups < 2 ^ 64 }
        ensures { result ≡ weight_left out (standing_of self.now).rest (standing_of self.now).groups }
    {
        let behind = self.weigh_behind();
        if !self.is_at_end() {
            return self.rest.weigh() + behind;
        }
        if out || self.groups.is_empty() {
            behind
        } else {
            behind - 1
        }
    }

    /// The weight of the open groups' ends, and of what stands behind them.
    fn weigh_behind(&self) -> u64
        requires { weight_behind (standing_of self.now).groups < 2 ^ 64 }
        ensures { result ≡ weight_behind (standing_of self.now).groups }
    {
        let mut sum = 0;
        for group in &self.groups {
            sum += 1 + group.behind.weigh();
        }
        sum
    }
}
