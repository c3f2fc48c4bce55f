//! Who watches a client.

ghost use Rattle.std.specs.Prelude.{◌≡◌, ◌+◌, ℕ, IsTrue, OnOk};
ghost use Rattle.dispatch_types.specs.declared.dispatch.Dispatch.{Dispatch as ADispatch};
ghost use Rattle.dispatch_types.specs.Kinds.{kind_of};
ghost use Rattle.client_cache.specs.Cached.{Cached};
ghost use Rattle.client_run.specs.Drives.{Warrants, wanted_again};
ghost use Rattle.client_run.specs.Watched.{WatchTale, HasToldLine, dispatch_line};

use client_cache::Cache;
use dispatch_types::Dispatch;
use std::alloc::AllocError;

/// What a watcher wants of its client.
#[derive(Clone, Copy, Debug, PartialEq, Eq)]
pub enum Wants {
    /// The client goes on.
    GoOn,
    /// The link is dropped without a close, and the client connects again.
    Reconnect,
    /// The link is closed with 1000, and the client ends.
    Finish,
    /// The link is dropped, and the client ends.
    Stop,
}

/// A watcher, which sees each dispatch and says when the client ends. `K` is what it writes to.
pub trait Watch<K> {
    /// What holds of what the client holds where the watcher has seen enough.
    ghost finished: { Self → Cached → Type 0 };

    /// What the watcher knows where it stops the client.
    ghost stopped: { Self → Type 0 };

    /// What it knows of the dispatch that it has looked at: its number, and the dispatch.
    ghost looked: { Self → ℕ → ADispatch → Type 0 };

    /// How many dispatches it was asked after, and the text of their lines, where it tells.
    ghost told: { Self → K → WatchTale };

    /// How often it has wanted its client to connect again.
    ghost reconnects: { Self → ℕ };

    /// Whether the client is to stop. Asked before each dial and before each turn on a link.
    fn is_stopped(&mut self) -> bool
        ensures stopped { IsTrue result → stopped self.new }
        ensures told { told self.new ≡ told self.old }
        ensures reconnects { reconnects self.new ≡ reconnects self.old };

    /// Looks at a dispatch with this number, which is not folded into the cache yet.
    fn before_dispatch(&mut self, number: u64, dispatch: &Dispatch) -> Result<(), AllocError>
        ensures looked { OnOk result (looked self.new number dispatch.now) }
        ensures told { told self.new ≡ told self.old }
        ensures reconnects { reconnects self.new ≡ reconnects self.old };

    /// What the watcher wants after the dispatch that it has looked at, which is folded into the cache.
    fn after_dispatch(&mut self, cache: &Cache, out: &mut K) -> Result<Wants, AllocError>
        ensures wants { Warrants (finished self.new cache.now) (stopped self.new) result }
        ensures told { (number : ℕ) (dispatch : ADispatch) → looked self.old number dispatch
            → HasToldLine (told self.old out.old) (dispatch_line number (kind_of dispatch)) (told self.new out.new) result }
        ensures reconnects { reconnects self.new ≡ reconnects self.old + wanted_again result };
}
