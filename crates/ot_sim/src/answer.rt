//! What a line is answered, as text.
ghost use Rattle.std.specs.Prelude.{◌≡◌, ◌++◌, ◌∷◌, [], OnOk, codes, string_bytes};
ghost use Rattle.std.specs.Fmt.{decimal};
ghost use Rattle.ot_sim.specs.Playing.{answer_text};

use std::alloc::AllocError;
use std::fmt::Write;

/// What one line is answered. A drain is answered several of these.
#[derive(Clone, Copy, Debug, PartialEq, Eq)]
pub enum Answer<'a> {
    /// The tenant is made.
    Tenant(&'a str),
    /// The request is asked.
    Asked(&'a str),
    /// As many requests are asked as the tenant's log may have.
    Full(&'a str),
    /// The tenant is told this reply.
    Reply(&'a str, &'a str),
    /// The request's job has begun.
    Job(&'a str),
    /// The worker has a piece of the tenant's job, of this task.
    Started(u32, &'a str, u32),
    /// The worker's piece is settled, with so many units.
    Finished(u32, u32),
    /// The job of the worker's piece fails, or has failed.
    FinishedFailed(u32),
    /// The tenant's job fails, or has failed.
    Aborted(&'a str),
    /// Nothing more can happen.
    Drained,
    /// The units that were settled for the tenant, of those for all.
    Usage(&'a str, u64, u64),
    /// The event isn't enabled.
    NotNow,
    /// The line is none of sim's.
    BadLine,
}

/// Writes an answer behind what is written, ended by one LF.
pub fn write_answer(answer: Answer<'_>, out: &mut String) -> Result<(), AllocError>
    ensures { OnOk result (string_bytes out.new ≡ string_bytes out.old ++ answer_text answer.entry) }
{
    match answer {
        Answer::Tenant(tenant) => write_words("tenant ", tenant, "\n", out),
        Answer::Asked(tenant) => write_words("asked ", tenant, "\n", out),
        Answer::Full(tenant) => write_words("full ", tenant, "\n", out),
        Answer::Reply(tenant, reply) => write_reply(tenant, reply, out),
        Answer::Job(tenant) => write_words("", tenant, " job\n", out),
        Answer::Started(worker, tenant, task) => write_started(worker, tenant, task, out),
        Answer::Finished(worker, units) => write_finished(worker, units, out),
        Answer::FinishedFailed(worker) => write_number(
            "finish ",
            u64::from(worker),
            " failed\n",
            out,
        ),
        Answer::Aborted(tenant) => write_words("abort ", tenant, "\n", out),
        Answer::Drained => out.push_str("drained\n"),
        Answer::Usage(tenant, units, total) => write_usage(tenant, units, total, out),
        Answer::NotNow => out.push_str("notnow\n"),
        Answer::BadLine => out.push_str("badline\n"),
    }
}

fn write_reply(tenant: &str, reply: &str, out: &mut String) -> Result<(), AllocError>
    ensures { OnOk result (string_bytes out.new ≡ string_bytes out.old ++ tenant.now ++ codes " " ++ reply.now ++ codes "\n") }
{
    write_words("", tenant, " ", out)?;
    write_words(reply, "\n", "", out)
}

fn write_started(worker: u32, tenant: &str, task: u32, out: &mut String) -> Result<(), AllocError>
    ensures { OnOk result (string_bytes out.new ≡ string_bytes out.old ++ codes "start " ++ decimal worker ++ codes " " ++ tenant.now
        ++ codes " task " ++ decimal task ++ codes "\n") }
{
    write_number("start ", u64::from(worker), " ", out)?;
    write_words(tenant, " task ", "", out)?;
    write_number("", u64::from(task), "\n", out)
}

fn write_finished(worker: u32, units: u32, out: &mut String) -> Result<(), AllocError>
    ensures { OnOk result (string_bytes out.new ≡ string_bytes out.old ++ codes "finish " ++ decimal worker ++ codes " units " ++ decimal units ++ codes "\n") }
{
    write_number("finish ", u64::from(worker), "", out)?;
    write_number(" units ", u64::from(units), "\n", out)
}

fn write_usage(tenant: &str, units: u64, total: u64, out: &mut String) -> Result<(), AllocError>
    ensures { OnOk result (string_bytes out.new ≡ string_bytes out.old ++ codes "usage " ++ tenant.now ++ codes " " ++ decimal units
        ++ codes " of " ++ decimal total ++ codes "\n") }
{
    write_words("usage ", tenant, " ", out)?;
    write_number("", units, " of ", out)?;
    write_number("", total, "\n", out)
}

fn write_words(first: &str, second: &str, third: &str, out: &mut String) -> Result<(), AllocError>
    ensures { OnOk result (string_bytes out.new ≡ string_bytes out.old ++ first.now ++ second.now ++ third.now) }
{
    out.push_str(first)?;
    out.push_str(second)?;
    out.push_str(third)
}

fn write_number(before: &str, number: u64, behind: &str, out: &mut String) -> Result<(), AllocError>
    ensures { OnOk result (string_bytes out.new ≡ string_bytes out.old ++ before.now ++ decimal number ++ behind.now) }
{
    out.push_str(before)?;
    write!(out, "{number}")?;
    out.push_str(behind)
}
