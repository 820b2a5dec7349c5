//! The lines that a server prints when it ends.
ghost use Rattle.std.specs.Prelude.{◌≡◌, ◌++◌, length, map, string_bytes, sum, vec_len, OnOk, IfOk};
ghost use Rattle.ot_serve.specs.Serving.{usage_line, usage_lines, usage_text};

use ot_pool::Usage;
use std::alloc::{AllocError, Global};
use std::fmt::Write;

/// The units of each tenant, in the order of the names, and of all.
pub(crate) fn write_usage(
    alloc: Global,
    names: &[String],
    usage: &Usage,
) -> Result<String, AllocError>
    requires each { vec_len usage.now.by_tenant ≡ length names.now }
    requires adds_up { sum usage.now.by_tenant.items ≡ usage.now.total }
    ensures { IfOk result (λ text. string_bytes text ≡ usage_text (map string_bytes names.now) usage.now.by_tenant.items) }
{
    let mut text = String::new(alloc);
    write_lines(names, usage.by_tenant.as_slice(), &mut text)?;
    write!(text, "total {}\n", usage.total)?;
    Ok(text)
}

/// Writes a line for each name that has units.
fn write_lines(names: &[String], units: &[u64], text: &mut String) -> Result<(), AllocError>
    ensures { OnOk result (string_bytes text.new ≡ string_bytes text.old ++ usage_lines (map string_bytes names.now) units.now) }
{
    let mut left = names;
    let mut counts = units;
    while let [name, more @ ..] = left {
        let [count, others @ ..] = counts else {
            return Ok(());
        };
        write_line(name.as_str(), *count, text)?;
        left = more;
        counts = others;
    }
    Ok(())
}

fn write_line(name: &str, units: u64, text: &mut String) -> Result<(), AllocError>
    ensures { OnOk result (string_bytes text.new ≡ string_bytes text.old ++ usage_line name.now units) }
{
    write!(text, "usage {name} {units}\n")
}
