//! A world of tenants, and the lines that move it.
ghost use Rattle.std.specs.Prelude.{◌≡◌, ◌∷◌, ℕ, List, [], Some, OnOk, IfOk, drop, length};
ghost use Rattle.std.specs.Io.KnownBytes.{Appends};
ghost use Rattle.ot_core.specs.Scenes.{Scene};
ghost use Rattle.ot_session.specs.Serving.{count_after};
ghost use Rattle.ot_sim.specs.declared.line.Line.TheVariants as line;
ghost use Rattle.ot_sim.specs.Playing.{tenant_place, answer_text, event_of, answer_of, saying_of, PlaysIn, Happens, replies_at, count_at, reply_given, reply_lines, news, usage_text, Plays, PlaysOn, empty_play};
ghost use Rattle.ot_sim.specs.Running.{untold_writes, WritesText, PlaysHeldLine, counts_at, world_begun};

use crate::answer::{Answer, write_answer};
use crate::fault::Untold;
use crate::line::{Line, read_line};
use crate::names::Names;
use ot_book::reply_text;
use ot_core::{Event, Replies, Stepped, World};
use ot_session::{Sink, write_whole};
use std::alloc::{AllocError, Global};

/// The tenants, and their world from the first line on that isn't a tenant's.
pub(crate) struct Play {
    names: Names,
    world: Option<World>,
}

/// What is told of an event.
#[derive(Clone, Copy)]
pub(crate) enum Saying<'a> {
    /// The reply that the tenant of this name and number was given last.
    Reply(&'a str, u32),
    Answer(Answer<'a>),
}

impl Play {
    /// Nobody is there.
    pub(crate) fn new(alloc: Global) -> Play
        ensures { result ≡ empty_play }
    {
        Play {
            names: Names::new(alloc),
            world: None,
        }
    }

    /// Gives up the pieces that are out.
    pub(crate) fn end(self) {
        let Play { names: _, world } = self;
        if let Some(world) = world {
            world.end();
        }
    }

    /// Takes a line, and writes what it is answered.
    pub(crate) fn take<W: Sink>(
        &mut self,
        alloc: Global,
        line: &[u8],
        sink: &mut W,
    ) -> Result<(), Untold>
        ensures { PlaysHeldLine self.old (W.draft sink.old) line.now self.new (W.draft sink.new) result }
    {
        match read_line(line) {
            Line::Tenant(name) => self.make(alloc, name, sink),
            Line::NoTenant => tell(alloc, Answer::BadLine, sink),
            line => self.play_on(alloc, line, sink),
        }
    }

    /// A tenant is made, before all other lines.
    fn make<W: Sink>(&mut self, alloc: Global, name: &str, sink: &mut W) -> Result<(), Untold>
        ensures plays { OnOk result (WritesText (W.draft sink.old).held (W.draft sink.new).held (λ text. Plays self.old (line.Tenant name.entry) text self.new)) }
        ensures failures { (W.draft sink.new).failures ≡ count_after (untold_writes result) (W.draft sink.old).failures }
    {
        if self.world.is_none() && self.names.add(alloc, name)? {
            return tell(alloc, Answer::Tenant(name), sink);
        }
        tell(alloc, Answer::BadLine, sink)
    }

    /// A line that ends the time of `tenant` lines.
    fn play_on<W: Sink>(
        &mut self,
        alloc: Global,
        line: Line<'_>,
        sink: &mut W,
    ) -> Result<(), Untold>
        ensures plays { OnOk result (WritesText (W.draft sink.old).held (W.draft sink.new).held (λ text. PlaysOn self.old line.entry text self.new)) }
        ensures failures { (W.draft sink.new).failures ≡ count_after (untold_writes result) (W.draft sink.old).failures }
    {
        self.begin(alloc)?;
        let Play { names, world } = self;
        let Some(world) = world else { unreachable!() };
        play_line(alloc, names, world, line, sink)
    }

    /// Begins the world, where it hasn't begun.
    fn begin(&mut self, alloc: Global) -> Result<(), AllocError>
        ensures { OnOk result (self.new ≡ world_begun self.old) }
    {
        if self.world.is_none() {
            let world = World::new(alloc, self.names.openings(alloc)?)?;
            if let Some(other) = self.world.replace(world) {
                other.end();
                unreachable!()
            }
        }
        Ok(())
    }
}

/// A line over a world.
fn play_line<W: Sink>(
    alloc: Global,
    names: &Names,
    world: &mut World,
    line: Line<'_>,
    sink: &mut W,
) -> Result<(), Untold>
    ensures plays { OnOk result (WritesText (W.draft sink.old).held (W.draft sink.new).held (λ text. PlaysIn names.now line.entry world.old text world.new)) }
    ensures failures { (W.draft sink.new).failures ≡ count_after (untold_writes result) (W.draft sink.old).failures }
{
    match line {
        Line::Drain => drain(alloc, names, world, sink),
        Line::Usage(name) => usage(alloc, names, world, name, sink),
        line => match event(names, line) {
            Some(event) => step(alloc, world, line, event, sink),
            None => tell(alloc, Answer::BadLine, sink),
        },
    }
}

/// The event that a line asks for, where the tenant that it names is there.
fn event<'a>(names: &Names, line: Line<'a>) -> Option<Event<'a>>
    ensures { result ≡ event_of names.now line.entry }
{
    match line {
        Line::Admit(name, request) => Some(Event::Admit(names.place(name)?, request)),
        Line::Open(name) => Some(Event::Open(names.place(name)?)),
        Line::Start(worker, name, pick) => Some(Event::Start(worker, names.place(name)?, pick)),
        Line::Finish(worker) => Some(Event::Finish(worker)),
        Line::Reply(name) => Some(Event::Reply(names.place(name)?)),
        Line::Abort(name) => Some(Event::Abort(names.place(name)?)),
        _ => None,
    }
}

/// An event.
fn step<W: Sink>(
    alloc: Global,
    world: &mut World,
    line: Line<'_>,
    event: Event<'_>,
    sink: &mut W,
) -> Result<(), Untold>
    ensures happens { OnOk result (WritesText (W.draft sink.old).held (W.draft sink.new).held (λ text. Happens line.entry (Some event.entry) world.old text world.new)) }
    ensures failures { (W.draft sink.new).failures ≡ count_after (untold_writes result) (W.draft sink.old).failures }
{
    let stepped = world.step(alloc, event)?;
    match told(line, event, stepped) {
        Saying::Reply(name, tenant) => tell_last(alloc, world, tenant, name, sink),
        Saying::Answer(answer) => tell(alloc, answer, sink),
    }
}

/// What is told of a line whose event did this.
fn told<'a>(line: Line<'a>, event: Event<'_>, stepped: Stepped) -> Saying<'a>
    ensures { result ≡ saying_of line.entry event.entry stepped }
{
    match (line, event, stepped) {
        (Line::Open(name), Event::Open(tenant), Stepped::Answered) => Saying::Reply(name, tenant),
        (Line::Reply(name), Event::Reply(tenant), Stepped::Replied) => Saying::Reply(name, tenant),
        _ => Saying::Answer(answer(line, stepped)),
    }
}

/// What is answered to a line whose event did this, where no reply was given.
fn answer(line: Line<'_>, stepped: Stepped) -> Answer<'_>
    ensures { result ≡ answer_of line.entry stepped }
{
    match (line, stepped) {
        (Line::Admit(name, _), Stepped::Asked) => Answer::Asked(name),
        (Line::Admit(name, _), Stepped::Full) => Answer::Full(name),
        (Line::Open(name), Stepped::Job) => Answer::Job(name),
        (Line::Start(worker, name, _), Stepped::Started(task)) => Answer::Started(
            worker, name, task,
        ),
        (Line::Finish(worker), Stepped::Finished(units)) => Answer::Finished(worker, units),
        (Line::Finish(worker), Stepped::FinishedFailed) => Answer::FinishedFailed(worker),
        (Line::Abort(name), Stepped::Aborted) => Answer::Aborted(name),
        _ => Answer::NotNow,
    }
}

/// The reply that a tenant was given last.
fn tell_last<W: Sink>(
    alloc: Global,
    world: &World,
    tenant: u32,
    name: &str,
    sink: &mut W,
) -> Result<(), Untold>
    ensures told { OnOk result (Appends (W.draft sink.old).held (W.draft sink.new).held (reply_given name.now tenant world.now)) }
    ensures failures { (W.draft sink.new).failures ≡ count_after (untold_writes result) (W.draft sink.old).failures }
{
    let given = count_given(world, tenant);
    tell_behind(alloc, world, tenant, name, given.saturating_sub(1), sink)
}

/// All that can happen happens, and each tenant is told the replies that it was given by it.
fn drain<W: Sink>(
    alloc: Global,
    names: &Names,
    world: &mut World,
    sink: &mut W,
) -> Result<(), Untold>
    ensures plays { OnOk result (WritesText (W.draft sink.old).held (W.draft sink.new).held (λ text. PlaysIn names.now line.Drain world.old text world.new)) }
    ensures failures { (W.draft sink.new).failures ≡ count_after (untold_writes result) (W.draft sink.old).failures }
{
    let given = counts_given(alloc, world, names.count())?;
    world.drain(alloc, &mut |_| 0)?;
    tell_news(alloc, names, world, given.as_slice(), sink)?;
    tell(alloc, Answer::Drained, sink)
}

/// How many replies each of the first tenants was given.
fn counts_given(alloc: Global, world: &World, tenants: u32) -> Result<Vec<usize>, AllocError>
    ensures { IfOk result (λ given. given.items ≡ counts_at world.now tenants) }
{
    let mut given = Vec::new(alloc);
    for tenant in 0..tenants {
        given.push(count_given(world, tenant))?;
    }
    Ok(given)
}

/// Tells each tenant the replies behind so many.
fn tell_news<W: Sink>(
    alloc: Global,
    names: &Names,
    world: &World,
    given: &[usize],
    sink: &mut W,
) -> Result<(), Untold>
    requires { length given.now ≡ length names.now }
    ensures told { (old : Scene) → given.now ≡ counts_at old (length names.now) →
        OnOk result (Appends (W.draft sink.old).held (W.draft sink.new).held (news names.now 0 old world.now)) }
    ensures failures { (W.draft sink.new).failures ≡ count_after (untold_writes result) (W.draft sink.old).failures }
{
    for (tenant, name) in names.as_slice().iter().enumerate() {
        tell_behind(
            alloc,
            world,
            tenant as u32,
            name.as_str(),
            given[tenant],
            sink,
        )?;
    }
    Ok(())
}

/// How many replies a tenant was given.
fn count_given(world: &World, tenant: u32) -> usize
    ensures { result ≡ count_at world.now tenant }
{
    match world.replies(tenant) {
        Some(replies) => replies.count_left(),
        None => 0,
    }
}

/// Tells a tenant the replies behind so many.
fn tell_behind<W: Sink>(
    alloc: Global,
    world: &World,
    tenant: u32,
    name: &str,
    given: usize,
    sink: &mut W,
) -> Result<(), Untold>
    ensures told { OnOk result (Appends (W.draft sink.old).held (W.draft sink.new).held (reply_lines name.now (drop given (replies_at world.now tenant)))) }
    ensures failures { (W.draft sink.new).failures ≡ count_after (untold_writes result) (W.draft sink.old).failures }
{
    let Some(mut replies) = world.replies(tenant) else {
        return Ok(());
    };
    replies.pass_over(given);
    tell_replies(alloc, name, replies, sink)
}

/// Tells a tenant these replies.
fn tell_replies<W: Sink>(
    alloc: Global,
    name: &str,
    replies: Replies<'_>,
    sink: &mut W,
) -> Result<(), Untold>
    ensures told { OnOk result (Appends (W.draft sink.old).held (W.draft sink.new).held (reply_lines name.now replies.entry)) }
    ensures failures { (W.draft sink.new).failures ≡ count_after (untold_writes result) (W.draft sink.old).failures }
{
    for reply in replies {
        let text = reply_text(alloc, &reply)?;
        tell(alloc, Answer::Reply(name, text.as_str()), sink)?;
    }
    Ok(())
}

/// The units of a tenant.
fn usage<W: Sink>(
    alloc: Global,
    names: &Names,
    world: &World,
    name: &str,
    sink: &mut W,
) -> Result<(), Untold>
    ensures told { OnOk result (Appends (W.draft sink.old).held (W.draft sink.new).held (usage_text (line.Usage name.entry) (tenant_place names.now name.now) world.now)) }
    ensures failures { (W.draft sink.new).failures ≡ count_after (untold_writes result) (W.draft sink.old).failures }
{
    let Some(tenant) = names.place(name) else {
        return tell(alloc, Answer::BadLine, sink);
    };
    let (units, total) = world.units(tenant);
    tell(alloc, Answer::Usage(name, units, total), sink)
}

/// Writes one answer.
fn tell<W: Sink>(alloc: Global, answer: Answer<'_>, sink: &mut W) -> Result<(), Untold>
    ensures told { OnOk result (Appends (W.draft sink.old).held (W.draft sink.new).held (answer_text answer.entry)) }
    ensures failures { (W.draft sink.new).failures ≡ count_after (untold_writes result) (W.draft sink.old).failures }
{
    let mut text = String::new(alloc);
    write_answer(answer, &mut text)?;
    match write_whole(sink, text.as_bytes()) {
        Ok(()) => Ok(()),
        Err(_) => Err(Untold::WriteFailed),
    }
}
