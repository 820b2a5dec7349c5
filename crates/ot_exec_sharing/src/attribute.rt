//! What a variable is in a construct (OpenMP API 5.2, section 5.1.1).
ghost use Rattle.std.specs.Prelude.{◌≡◌};
ghost use Rattle.ot_exec_sharing.specs.Attributes as meant;

use ot_exec_tree::Default;

/// What a variable that was declared outside is in a construct.
#[derive(Clone, Copy, Debug, PartialEq, Eq)]
pub enum How {
    Shared,
    Private,
    Firstprivate,
    Lastprivate,
    /// `firstprivate` and `lastprivate`
    Both,
    /// It takes part in a reduction: the same cells, in a mode of their own.
    Reduced,
    /// It is the variable of the thread that does this part of the work, which no other thread sees.
    Own,
}

/// What a construct does with the variables around it.
#[derive(Clone, Copy, Debug, PartialEq, Eq)]
pub enum Region {
    /// `parallel`
    Team,
    /// `task`, `taskloop`
    Task,
    /// A part of the work that the threads of a team share: a turn of `for`, a section, the body of `single`.
    Unit,
    /// It is executed by who comes to it.
    Other,
}

/// How a variable stands outside of a construct.
#[derive(Clone, Copy, Debug, PartialEq, Eq)]
pub struct Around {
    /// It lives as long as the program, and no construct around has a copy.
    pub is_static: bool,
    /// Each construct from the innermost `parallel` around on has it shared.
    pub is_shared: bool,
}

/// What it is by a `default` clause.
fn by_default(default: Default) -> Option<How>
    ensures { result ≡ meant.by_default default }
{
    match default {
        Default::Shared => Some(How::Shared),
        Default::None => None,
        Default::Private => Some(How::Private),
        Default::Firstprivate => Some(How::Firstprivate),
    }
}

/// What it is where no clause names it. None where `default(none)` wants one.
fn implicit(region: Region, default: Option<Default>, around: Around) -> Option<How>
    ensures { result ≡ meant.implicit region default around }
{
    match region {
        Region::Other => Some(How::Shared),
        Region::Team => match default {
            None => Some(How::Shared),
            Some(default) => by_default(default),
        },
        Region::Task => match default {
            None => {
                if around.is_static || around.is_shared {
                    Some(How::Shared)
                } else {
                    Some(How::Firstprivate)
                }
            }
            Some(default) => by_default(default),
        },
        Region::Unit => {
            if around.is_static || around.is_shared {
                Some(How::Shared)
            } else {
                Some(How::Own)
            }
        }
    }
}

/// What it is by the clause that names it, or else by `default` and what it is around. None where `default(none)` wants a clause.
pub fn attribute_of(
    region: Region,
    named: Option<How>,
    default: Option<Default>,
    around: Around,
) -> Option<How>
    ensures { result ≡ meant.attribute_of region named default around }
{
    match named {
        Some(how) => Some(how),
        None => implicit(region, default, around),
    }
}

/// How it stands within the construct.
pub fn within(region: Region, how: How, around: Around) -> Around
    ensures { result ≡ meant.within region how around }
{
    match how {
        How::Shared | How::Reduced | How::Own => match region {
            Region::Team => Around {
                is_static: around.is_static,
                is_shared: true,
            },
            Region::Task | Region::Unit | Region::Other => around,
        },
        How::Private | How::Firstprivate | How::Lastprivate | How::Both => Around {
            is_static: false,
            is_shared: false,
        },
    }
}
