//! Which names tenants may have.
ghost use Rattle.std.specs.Prelude.{◌≡◌, is_none, map, option_map, string_bytes};
ghost use Rattle.std.specs.List.{list_any};
ghost use Rattle.std.specs.Str.{bytes_eq};
ghost use Rattle.ot_serve.specs.Serving.{are_tenants, first_bad};
ghost use Rattle.ot_serve.specs.Starting.{TellsOf};

use crate::fault::Fault;
use ot_program::is_name;

/// How many tenants there may be.
const MAX_TENANTS: usize = 64;

/// Looks whether these can be the names of the tenants.
pub(crate) fn look_at_names(names: &[String]) -> Result<(), Fault>
    ensures { TellsOf (map string_bytes names.now) result }
{
    if bad_name(names).is_some() {
        return Err(Fault::BadTenantName);
    }
    if names.len() > MAX_TENANTS {
        return Err(Fault::TooManyTenants);
    }
    Ok(())
}

/// The first name that isn't one of a tenant beside those behind it: it hasn't the form of a name, or is given again.
pub fn bad_name(names: &[String]) -> Option<&str>
    ensures first { option_map (λ name. name.now) result ≡ first_bad (map string_bytes names.now) }
    ensures none { is_none result ≡ are_tenants (map string_bytes names.now) }
{
    let mut rest = names;
    while let [first, behind @ ..] = rest {
        if !is_name(first.as_str()) || has_name(behind, first.as_str()) {
            return Some(first.as_str());
        }
        rest = behind;
    }
    None
}

fn has_name(names: &[String], name: &str) -> bool
    ensures { result ≡ list_any (bytes_eq name.now) (map string_bytes names.now) }
{
    let mut rest = names;
    while let [first, behind @ ..] = rest {
        if name == first.as_str() {
            return true;
        }
        rest = behind;
    }
    false
}
