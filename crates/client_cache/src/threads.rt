//! THREAD_CREATE, THREAD_UPDATE and THREAD_DELETE.

ghost use Rattle.std.specs.Prelude.{◌≡◌, option_map, OnOk, OnErr};
ghost use Rattle.std.specs.Option.{option_copied};
ghost use Rattle.dispatch_types.specs.Objects.{thread_member_of};
ghost use Rattle.dispatch_types.specs.Fold.{thread_of, joined_thread, set_thread, drop_thread, mine_of, update_thread};

use crate::fold::Fold;
use crate::objects::thread_member_of;
use dispatch_types::{JoinedThread, OpenView, ThreadCreate, ThreadObject, ThreadView};
use guild_model::ThreadMember;
use snowflake_id::Snowflake;
use std::alloc::AllocError;

/// A thread as the client holds it, with this own membership.
pub(crate) fn thread_of(fold: &Fold, mine: Option<ThreadMember>, object: ThreadObject) -> ThreadView
    ensures { result ≡ thread_of fold.now.intents mine object }
{
    ThreadView {
        id: object.id,
        kind: object.kind,
        owner: object.owner,
        parent: object.parent,
        mine,
        count: fold.counted(object.count.get()),
        name: object.into_name(),
    }
}

/// A thread of GUILD_CREATE.
pub(crate) fn joined_thread(fold: &Fold, object: JoinedThread) -> ThreadView
    ensures { result ≡ joined_thread fold.now.intents fold.now.bot object }
{
    let mine = match object.joined {
        Some(joined) => Some(ThreadMember {
            user: fold.bot,
            joined,
        }),
        None => None,
    };
    thread_of(fold, mine, object.into_thread())
}

/// Adds or replaces a thread, with the own membership that is sent (Gateway Events, Thread Create).
pub(crate) fn create_thread(
    fold: &Fold,
    view: &mut OpenView,
    create: ThreadCreate,
) -> Result<(), AllocError>
    ensures ok { OnOk result (view.new ≡ set_thread
        (thread_of fold.now.intents (option_map thread_member_of create.member) create.thread)
        view.old) }
    ensures err { OnErr result (view.new ≡ view.old) }
{
    let member = create.member;
    let mine = match member {
        Some(member) => Some(thread_member_of(&member)),
        None => None,
    };
    view.threads
        .put(thread_of(fold, mine, create.into_thread()))
}

// The own membership in a thread that may be held.
fn mine_of(thread: Option<&ThreadView>) -> Option<ThreadMember>
    ensures { result ≡ mine_of (option_copied thread.entry) }
{
    match thread {
        Some(thread) => thread.mine,
        None => None,
    }
}

/// Removes a thread that is archived. Any other is added or replaced, and the own membership stays
/// as it was (Gateway Events, Thread Update).
pub(crate) fn update_thread(
    fold: &Fold,
    view: &mut OpenView,
    object: ThreadObject,
) -> Result<(), AllocError>
    ensures ok { OnOk result (view.new ≡ update_thread fold.now.intents object view.old) }
    ensures err { OnErr result (view.new ≡ view.old) }
{
    if object.archived {
        view.threads.remove(object.id.0);
        return Ok(());
    }
    let mine = mine_of(view.threads.get(object.id.0));
    view.threads.put(thread_of(fold, mine, object))
}

/// Removes a thread (Gateway Events, Thread Delete).
pub(crate) fn drop_thread(view: &mut OpenView, thread: Snowflake)
    ensures { view.new ≡ drop_thread thread view.old }
{
    view.threads.remove(thread.0);
}
