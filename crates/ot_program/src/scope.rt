ghost use Rattle.std.specs.Prelude.{◌≡◌};
ghost use Rattle.ot_program.specs.walk.Sizes.{bindings_of, variable_of};

use crate::fault::Refusal;
use crate::name::is_name;
use crate::profile::Profile;
use crate::shape::NamedShape;

/// A variable of a `for`, and its number in this turn.
#[derive(Clone, Copy, Debug)]
pub(crate) struct Variable<'a> {
    pub(crate) name: &'a str,
    pub(crate) number: u32,
}

/// The variables of the `for`s around a statement, the innermost first.
#[derive(Clone, Copy)]
pub(crate) enum Variables<'a> {
    None,
    Bound(Variable<'a>, &'a Variables<'a>),
}

impl Variables<'_> {
    /// The number of a name. An inner variable hides an outer one of the same name.
    pub(crate) fn number(&self, name: &str) -> Result<u32, Refusal>
        ensures { result ≡ variable_of (bindings_of self.now) name.now }
    {
        if !is_name(name) {
            return Err(Refusal::Form);
        }
        bound(self, name).ok_or(Refusal::Size)
    }
}

ghost use Rattle.ot_program.specs.Meanings.{number_bound};

fn bound(variables: &Variables, name: &str) -> Option<u32>
    ensures { result ≡ number_bound (bindings_of variables.now) name.now }
{
    match variables {
        Variables::None => None,
        Variables::Bound(variable, _) if variable.name == name => Some(variable.number),
        Variables::Bound(_, outer) => bound(outer, name),
    }
}

/// Where statements stand: the arrays that they may name, the profile of their forms, the variables
/// around them, and the level of their body, the program's own being at 1.
#[derive(Clone, Copy)]
pub(crate) struct Scope<'a> {
    pub(crate) shape: &'a NamedShape<'a>,
    pub(crate) profile: Profile,
    pub(crate) variables: &'a Variables<'a>,
    pub(crate) level: u32,
}
