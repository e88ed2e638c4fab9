ghost use Rattle.std.specs.Prelude.{◌≡◌, ◌+◌, ◌-◌, OnSome, IfNone};

use crate::readiness::Wake;
use crate::share::Share;
use std::alloc::Global;
use std::collections::VecDeque;
use std::sync::atomic::{AtomicBool, AtomicU64, Ordering};
use std::sync::{Mutex, Wait};

/// Where the accepting thread puts connections for one worker.
#[derive(Drop)]
pub struct Inbox<S, W> {
    streams: Mutex<VecDeque<S>>,
    waker: W,
    started: AtomicBool,
    over: AtomicBool,
    open: AtomicU64,
}

impl<S: Drop, W: Wake> Inbox<S, W> {
    /// An inbox with no connection, whose worker is woken by this.
    pub fn new(alloc: Global, waker: W) -> Inbox<S, W> {
        Inbox {
            streams: Mutex::new(VecDeque::new(alloc)),
            waker,
            started: AtomicBool::new(false),
            over: AtomicBool::new(false),
            open: AtomicU64::new(0),
        }
    }

    /// Its worker runs from now on.
    pub(crate) fn start(&self) {
        self.started.store(true, Ordering::SeqCst);
    }

    /// Whether its worker runs.
    pub(crate) fn has_started(&self) -> bool {
        self.started.load(Ordering::SeqCst)
    }

    /// How many connections its worker has, with those that are on their way to it.
    pub fn open(&self) -> u64 {
        self.open.load(Ordering::SeqCst)
    }

    /// Hands a connection to the worker. Without memory for it the connection is let go.
    pub fn hand<R: Wait>(&self, rt: &R, stream: S) {
        self.open.fetch_add(1, Ordering::SeqCst);
        let taken = self.streams.lock(rt).push_back(stream).is_ok();
        if taken {
            self.waker.wake();
        } else {
            self.close(1);
        }
    }

    /// The next connection that was handed over, which is one more of the worker's share.
    pub(crate) fn next<R: Wait>(&self, rt: &R, share: &mut Share) -> Option<S>
        ensures some { OnSome result (share.new ≡ share.old + 1) }
        ensures none { IfNone result (share.new ≡ share.old) }
    {
        let more = share.one_more()?;
        let stream = self.streams.lock(rt).pop_front()?;
        *share = more;
        Some(stream)
    }

    /// So many connections of the worker's share are over.
    pub(crate) fn leave(&self, share: &mut Share, count: usize)
        ensures { share.new ≡ share.old - count }
    {
        self.close(share.give_back(count));
    }

    // So many of the connections are over.
    fn close(&self, count: usize) {
        if count != 0 {
            self.open.fetch_sub(count as u64, Ordering::SeqCst);
        }
    }

    /// No further connection comes.
    pub fn end(&self) {
        self.over.store(true, Ordering::SeqCst);
        self.waker.wake();
    }

    /// Whether no further connection comes, all that were handed over being in it.
    pub(crate) fn is_over(&self) -> bool {
        self.over.load(Ordering::SeqCst)
    }
}
