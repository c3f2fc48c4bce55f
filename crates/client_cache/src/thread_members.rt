//! THREAD_MEMBERS_UPDATE.

ghost use Rattle.std.specs.Prelude.{◌≡◌, ◌==◌, None, if◌then◌else◌, map, refl, option_map};
ghost use Rattle.std.specs.Option.{option_or};
ghost use Rattle.std.specs.List.{find};
ghost use Rattle.dispatch_types.specs.declared.view.ThreadView.{ThreadView};
ghost use Rattle.dispatch_types.specs.declared.threads.ThreadMemberObject.{ThreadMemberObject};
ghost use Rattle.dispatch_types.specs.Objects.{thread_member_of};
ghost use Rattle.dispatch_types.specs.Fold.{contains, update_members};
ghost use Rattle.client_cache.specs.Sent.{membership_changed};

use crate::fold::Fold;
use crate::objects::thread_member_of;
use collections::{ById, Change};
use dispatch_types::{OpenView, ThreadMemberObject, ThreadMembersUpdate, ThreadView};
use guild_model::ThreadMember;
use snowflake_id::Snowflake;

// The first membership of a user.
fn membership_of(members: &[ThreadMemberObject], user: Snowflake) -> Option<ThreadMember>
    ensures { result ≡ option_map thread_member_of
        (find (λ (m : ThreadMemberObject). m.user == user) members.now) }
{
    let listed = members.iter().find(|member| member.user == user);
    listed.map(thread_member_of)
}

fn contains(ids: &[Snowflake], id: Snowflake) -> bool
    ensures { result ≡ contains id ids.now }
{
    ids.iter().any(|other| *other == id)
}

// A change of the own membership and of the count of a thread.
#[derive(Clone, Copy)]
struct MembershipChange {
    joined: Option<ThreadMember>,
    left: bool,
    count: Option<u32>,
}

// The own membership after the bot has joined or left, by what it was.
fn mine_after(
    joined: Option<ThreadMember>,
    left: bool,
    mine: Option<ThreadMember>,
) -> Option<ThreadMember>
    ensures { result ≡ option_or joined (if left then None else mine) }
{
    match joined {
        Some(joined) => Some(joined),
        None => if left { None } else { mine },
    }
}

impl Change<ThreadView> for MembershipChange {
    ghost changed = { λ change t. membership_changed change.joined change.left change.count t };

    fn change(self, thread: &mut ThreadView) {
        let mine = thread.mine;
        thread.mine = mine_after(self.joined, self.left, mine);
        thread.count = self.count;
    }

    ghost keeps_key = { λ change t. refl };
}

// Changes the thread of an id.
fn change_members(threads: &mut ById<ThreadView>, thread: u64, change: MembershipChange)
    ensures { threads.new ≡ map (λ (t : ThreadView). if t.id == thread
        then membership_changed change.joined change.left change.count t
        else t) threads.old }
{
    // Brings the list's invariant into the proof.
    let _threads = threads.as_slice();
    threads.change(thread, change);
}

/// Sets the own membership if the bot is among the users who were added, and removes it if the bot
/// is among those who were removed; sets the count. Nothing changes if the thread is not held
/// (Gateway Events, Thread Members Update).
pub(crate) fn update_members(fold: &Fold, view: &mut OpenView, update: &ThreadMembersUpdate)
    ensures { view.new ≡ update_members fold.now.intents fold.now.bot update.now view.old }
{
    let change = MembershipChange {
        joined: membership_of(update.added.as_slice(), fold.bot),
        left: contains(update.removed.as_slice(), fold.bot),
        count: fold.counted(update.count.get()),
    };
    change_members(&mut view.threads, update.id.0, change);
}
