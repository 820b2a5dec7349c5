//! Teams of parallel regions: what is done by one thread, and what by several.
use ot_exec_layout::Layouts;
use ot_exec_tree::{Clause, Directive, Expr, Role, Stmt, Unit};

/// Whether a clause has this role.
pub fn has(clauses: &[Clause], role: Role) -> bool {
    for clause in clauses {
        if clause.role == role {
            return true;
        }
    }
    false
}

/// The value of the clause with this role.
pub fn value_of(clauses: &[Clause], role: Role) -> Option<&Expr> {
    for clause in clauses {
        if clause.role == role {
            return clause.items.first();
        }
    }
    None
}

/// The condition of the `if` clause that is for this directive.
pub fn condition_of(clauses: &[Clause], directive: Directive) -> Option<&Expr> {
    for clause in clauses {
        if let Role::If(of) = clause.role
            && of.unwrap_or(directive) == directive
        {
            return clause.items.first();
        }
    }
    None
}

/// Whether the team of a parallel region with these clauses has one thread, as a constant says.
pub fn is_of_one(layouts: &mut Layouts, unit: &Unit, clauses: &[Clause]) -> bool {
    if let Some(count) = value_of(clauses, Role::NumThreads)
        && let Some(count) = layouts.constant(unit, count)
        && count.number == 1
    {
        return true;
    }
    match condition_of(clauses, Directive::Parallel) {
        Some(test) => match layouts.constant(unit, test) {
            Some(test) => test.number == 0,
            None => false,
        },
        None => false,
    }
}

/// Whether one thread of the team does all that is done in this body of a parallel region: behind what has no barrier nothing more is done.
pub fn is_by_one(body: &Stmt) -> bool {
    match body {
        Stmt::Block(_, list, _) => is_by_one_in_turn(list.as_slice()),
        Stmt::Empty(_) => true,
        Stmt::Construct(_, directives, _, _, _) => match directives.first() {
            Some(Directive::Single)
            | Some(Directive::Masked)
            | Some(Directive::Taskyield)
            | Some(Directive::Flush) => true,
            _ => false,
        },
        _ => false,
    }
}

/// The same of a list.
fn is_by_one_in_turn(list: &[Stmt]) -> bool {
    let mut is_open = false;
    for statement in list {
        match statement {
            Stmt::Declares(_, _, None) | Stmt::Empty(_) => {}
            Stmt::Construct(_, directives, _, clauses, _) => {
                if is_open || !is_one(directives.as_slice()) {
                    return false;
                }
                is_open = has(clauses.as_slice(), Role::Nowait)
                    || directives.first() == Some(&Directive::Masked);
            }
            Stmt::Block(_, inner, _) => {
                if list.len() > 1 || !is_one_in_block(inner.as_slice()) {
                    return false;
                }
            }
            _ => return false,
        }
    }
    true
}

fn is_one_in_block(inner: &[Stmt]) -> bool {
    match inner {
        [Stmt::Construct(_, directives, _, _, _)] => is_one(directives.as_slice()),
        _ => false,
    }
}

fn is_one(directives: &[Directive]) -> bool {
    matches!(
        directives.first(),
        Some(Directive::Single) | Some(Directive::Masked)
    )
}
