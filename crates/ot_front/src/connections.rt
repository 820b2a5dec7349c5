//! Connections over a Unix socket, in threads.
ghost use Rattle.std.specs.Prelude.{◌≡◌, ◌≤◌, IfErr};
ghost use Rattle.ot_session.specs.declared.fault.FrontFault.TheVariants.{SocketFailed};

use crate::connection::serve_connection;
use crate::desk::Desk;
use ot_lines::Reading;
use ot_pool::Pool;
use ot_session::{FrontFault, Writing};
use std::alloc::Global;
use std::os::unix::net::UnixListener;
use std::sync::ledger::Ledger;
use std::sync::{Mutex, Wait};
use std::thread;
use std::thread::Threads;

/// Takes connections in the caller's thread and in `sessions - 1` further ones; one that can't be
/// started is done without. Each thread has one connection at a time: its greeting and its session. The
/// book comes back whatever ended the session, and a fault ends its own session alone.
///
/// With a `count` it returns after so many connections, of which each attempt to accept one takes its
/// turn. A thread whose attempt failed ends, and the others go on; once all have ended that is the
/// fault.
pub fn listen<L: Ledger + Send + Sync, R: Threads + Wait + Sync>(
    rt: &R,
    alloc: Global,
    pool: &Pool<L>,
    desk: &Desk,
    listener: &UnixListener,
    sessions: u32,
    count: Option<u32>,
) -> Result<(), FrontFault>
    requires { (1 ≤ sessions) × (sessions ≤ 16) }
    ensures { IfErr result (λ fault. fault ≡ SocketFailed) }
{
    let left = Mutex::new(count);
    if listen_in_threads(rt, alloc, pool, desk, listener, sessions, &left) {
        Ok(())
    } else {
        Err(FrontFault::SocketFailed)
    }
}

/// What serves connections from a desk. A thread borrows a pool as such a service, and its desk: so whether it may is
/// asked of the two alone, and not of all that they are made of.
trait Service<D> {
    /// Takes one connection after another, as long as there are turns. Whether each was accepted.
    fn take_connections<R: Wait>(
        &self,
        rt: &R,
        alloc: Global,
        desk: &D,
        listener: &UnixListener,
        left: &Mutex<Option<u32>>,
    ) -> bool;
}

impl<L: Ledger> Service<Desk> for Pool<L> {
    fn take_connections<R: Wait>(
        &self,
        rt: &R,
        alloc: Global,
        desk: &Desk,
        listener: &UnixListener,
        left: &Mutex<Option<u32>>,
    ) -> bool {
        for _ in rt.forever() {
            if !takes_turn(rt, left) {
                return true;
            }
            let Ok((stream, _)) = listener.accept() else {
                return false;
            };
            let mut source = Reading::new(&stream);
            let mut sink = Writing::new(&stream);
            let _ = serve_connection(rt, alloc, self, desk, &mut source, &mut sink);
        }
        unreachable!()
    }
}

/// Takes connections in so many threads. Whether each was accepted.
fn listen_in_threads<P: Service<D> + Sync, D: Sync, R: Threads + Wait + Sync>(
    rt: &R,
    alloc: Global,
    service: &P,
    desk: &D,
    listener: &UnixListener,
    sessions: u32,
    left: &Mutex<Option<u32>>,
) -> bool {
    thread::scope(thread::scope_env(), rt, |scope| {
        let mut threads = Vec::new(alloc);
        for _ in 1..sessions {
            if threads.reserve(1).is_err() {
                break;
            }
            if let Ok(thread) = scope.spawn(move || service.take_connections(
                rt, alloc, desk, listener, left,
            )) {
                threads.push_reserved(thread);
            }
        }
        let mut accepted = service.take_connections(rt, alloc, desk, listener, left);
        while let Some(thread) = threads.pop() {
            accepted &= thread.join(rt);
        }
        accepted
    })
}

/// Takes the turn to accept one connection more, where there is one.
fn takes_turn<R: Wait>(rt: &R, left: &Mutex<Option<u32>>) -> bool {
    let mut left = left.lock(rt);
    let now: Option<u32> = *left;
    match now {
        None => true,
        Some(0) => false,
        Some(count) => {
            *left = Some(count - 1);
            true
        }
    }
}
