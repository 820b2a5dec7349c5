//! Random events of many tenants, and what each tenant is told of its own requests alone.
use super::tenants::world_of;
use ot_book::{Book, Executor, Opened, Reply, Solo, Told, reply_text};
use ot_core::{Event, World};
use ot_store::{Limits, Store, StoreFault};
use std::alloc::{AllocError, Global};
use std::env;

/// Numbers by xorshift.
#[derive(Clone, Copy, Debug)]
struct Random {
    number: u64,
}

impl Random {
    fn next(&mut self) -> u64 {
        self.number ^= self.number << 13;
        self.number ^= self.number >> 7;
        self.number ^= self.number << 17;
        self.number >> 33
    }

    /// A number below this one, and 0 where that is 0.
    fn below(&mut self, bound: u32) -> u32 {
        let next = u32::try_from(self.next()).unwrap_or(0);
        next.checked_rem(bound).unwrap_or(0)
    }

    /// One event of 64 tenants: mostly starts and finishes, so that jobs come to an end, and seldom an abort.
    /// There is no tenant 64, and no worker 0 or 17.
    fn event(&mut self) -> Event<'static> {
        let tenant = self.below(65);
        let worker = self.below(18);
        match self.below(128) {
            0..=15 => Event::Admit(tenant, self.line().as_bytes()),
            16..=35 => Event::Open(tenant),
            36..=77 => Event::Start(worker, tenant, self.below(u32::MAX)),
            78..=113 => Event::Finish(worker),
            114..=126 => Event::Reply(tenant),
            _ => Event::Abort(tenant),
        }
    }

    fn line(&mut self) -> &'static str {
        let place = self.below(15) as usize;
        LINES.get(place).copied().unwrap_or("{}")
    }
}

/// What a tenant may ask that has an array `a` of four cells: a chain, readers beside a writer, nested tasks, a
/// sum, a branch, a program without tasks, requests that are answered at once, a checkpoint, and refused ones.
const LINES: [&str; 15] = [
    r#"["run",["program",[["a",0,4]],[["for","i",0,3,[["task",[["inout",["a",0,2]]],[["add",["c","a",0],["+",["c","a",1],1]]]]]]]]]"#,
    r#"["run",["program",[["a",0,4]],[["task",[["out",["a",0,1]]],[["set",["c","a",0],["+",["c","a",0],7]]]],["task",[["in",["a",0,1]],["out",["a",1,1]]],[["set",["c","a",1],["+",["c","a",0],1]]]],["task",[["in",["a",0,1]],["out",["a",2,1]]],[["set",["c","a",2],["*",["c","a",0],3]]]],["wait"],["set",["c","a",3],["c","a",2]]]]]"#,
    r#"["run",["program",[["a",0,3]],[["task",[["inout",["a",0,3]]],[["task",[["out",["a",0,1]]],[["set",["c","a",0],["+",["c","a",0],4]]]],["task",[["out",["a",1,1]]],[["set",["c","a",1],5]]],["wait"],["set",["c","a",2],["+",["c","a",0],["c","a",1]]]]]]]]"#,
    r#"["run",["program",[["a",0,1]],[["group",[["a",0,1]],[["task",[["red",["a",0,1]]],[["add",["c","a",0],18446744073709551615]]],["task",[["red",["a",0,1]]],[["add",["c","a",0],["c","a",1]]]],["task",[["red",["a",0,1]],["in",["a",1,1]]],[["add",["c","a",0],["c","a",1]]]]]]]]]"#,
    r#"["run",["program",[["a",0,4]],[["if",["<",["c","a",0],5],[["task",[["inout",["a",0,1]]],[["add",["c","a",0],3]]],["wait"]],[["set",["c","a",0],0]]],["set",["c","a",3],["c","a",0]]]]]"#,
    r#"["run",["program",[["a",1,2]],[["set",["c","a",1],["+",["c","a",1],["c","a",2]]],["add",["c","a",2],1]]]]"#,
    r#"["run",["program",[],[["task",[["in",["a",0,1]]],[["set",["c","a",0],1]]]]]]"#,
    r#"["put","a",0,[1,2,3,4]]"#,
    r#"["get","a",0,4]"#,
    r#"["new","b",2]"#,
    r#"["free","b"]"#,
    r#"["used"]"#,
    r#"["list"]"#,
    r#"["checkpoint"]"#,
    "[",
];

/// So many events.
fn events_of(
    alloc: Global,
    count: u32,
    random: &mut Random,
) -> Result<Vec<Event<'static>>, AllocError> {
    let mut events = Vec::with_capacity(alloc, count as usize)?;
    for _ in 0..count {
        events.push(random.event())?;
    }
    Ok(events)
}

/// 64 tenants that have the array.
fn world_with_arrays(alloc: Global) -> Result<World, StoreFault> {
    let mut store = Store::empty(alloc);
    store.create(alloc, "a", 4, &Limits::usual())?;
    Ok(world_of(alloc, 64, Limits::usual(), &store)?)
}

/// How many replies there were, how many runs were done, how many were answered for want of memory, and how many
/// tenants were told something else than their own requests give.
#[derive(Clone, Copy, Debug)]
struct Tally {
    replies: u64,
    done: u64,
    lost: u64,
    wrong: u64,
}

impl Tally {
    fn count(&mut self, told: &Told) {
        self.replies = self.replies.wrapping_add(1);
        match told {
            Told::Done(_, _, _) => self.done = self.done.wrapping_add(1),
            Told::Lost => self.lost = self.lost.wrapping_add(1),
            _ => {}
        }
    }
}

/// Answers a line in a book: a run is executed whole, each task where it is created, or lost for want of memory.
fn answer(alloc: Global, book: &mut Book, line: &[u8], lost: bool) -> Result<(), AllocError> {
    let Opened::ToRun(spec) = book.open(alloc, line)? else {
        return Ok(());
    };
    if lost {
        book.close_refused(spec);
        return Ok(());
    }
    match Solo.perform(alloc, &spec) {
        Ok(outcome) => book.close(spec, outcome),
        Err(_) => book.close_refused(spec),
    }
    Ok(())
}

/// Whether the last reply of a book is this one.
fn is_last(alloc: Global, book: &Book, reply: &Reply<'_>) -> Result<bool, AllocError> {
    let Some(last) = book.reply_at(book.log().len().saturating_sub(1)) else {
        return Ok(false);
    };
    Ok(reply_text(alloc, &last)? == reply_text(alloc, reply)?)
}

/// Whether a tenant was told the first of what its own requests give, one after another in a book of its own.
fn is_told_its_own(
    alloc: Global,
    world: &World,
    tenant: u32,
    tally: &mut Tally,
) -> Result<bool, AllocError> {
    let (Some(asked), Some(base), Some(mut replies)) = (
        world.asked(tenant),
        world.base(tenant),
        world.replies(tenant),
    ) else {
        return Ok(false);
    };
    let mut book = Book::new(alloc, "alone", Limits::usual(), base.copy(alloc)?)?;
    for line in asked {
        let Some(reply) = replies.next() else {
            return Ok(true);
        };
        tally.count(reply.told);
        let lost = matches!(reply.told, Told::Lost);
        answer(alloc, &mut book, line.as_slice(), lost)?;
        if !is_last(alloc, &book, &reply)? {
            return Ok(false);
        }
    }
    Ok(replies.next().is_none())
}

/// What is counted of all tenants.
fn compare(alloc: Global, world: &World) -> Result<Tally, AllocError> {
    let mut tally = Tally {
        replies: 0,
        done: 0,
        lost: 0,
        wrong: 0,
    };
    for tenant in 0..64u32 {
        if !is_told_its_own(alloc, world, tenant, &mut tally)? {
            tally.wrong = tally.wrong.wrapping_add(1);
        }
    }
    Ok(tally)
}

/// So many random events: what is counted after them, and again once every line was answered in a random order.
fn play(alloc: Global, count: u32, seed: u64) -> Result<(Tally, Tally), StoreFault> {
    let mut random = Random { number: seed };
    let mut world = world_with_arrays(alloc)?;
    let events = events_of(alloc, count, &mut random)?;
    world.run(alloc, events.as_slice())?;
    let first = compare(alloc, &world)?;
    world.drain(alloc, &mut |_| random.next())?;
    let whole = compare(alloc, &world)?;
    Ok((first, whole))
}

/// It takes 10,000 events, or as many as RANDOM_EVENTS says, from the seed RANDOM_SEED, and tells what it counted.
#[test]
fn random_events_give_each_tenant_its_own_replies(rt: HostRuntime) {
    let count = match env::var(&rt, "RANDOM_EVENTS") {
        Ok(count) => count.parse::<u32>().unwrap_or(10_000),
        Err(_) => 10_000,
    };
    let seed = match env::var(&rt, "RANDOM_SEED") {
        Ok(seed) => seed.parse::<u64>().unwrap_or(88172645463325252),
        Err(_) => 88172645463325252,
    };
    let Ok((first, whole)) = play(rt.alloc(), count, seed) else {
        panic!(rt; "no memory");
    };
    let _ = println!(rt; "{count} events: {first:?}, then {whole:?}");
    assert_eq!(rt; first.wrong, 0);
    assert_eq!(rt; whole.wrong, 0);
    assert!(rt; first.done > 50 && first.lost > 5 && whole.replies > first.replies);
}
