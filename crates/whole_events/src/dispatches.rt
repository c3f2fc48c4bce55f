//! What an accepted edit owes to a viewer that is served before and after it (Gateway Events, Receive Events).

ghost use Rattle.std.specs.Prelude.{◌≡◌, ◌++◌, Some, true, IfOk, OnOk};
ghost use Rattle.collections.specs.ById.{find_id};
ghost use Rattle.guild_model.specs.Record.{Record, member_id};
ghost use Rattle.guild_model.specs.Sight.{standing};
ghost use Rattle.thread_sync.specs.ChannelSights.{by_sights, sights};
ghost use Rattle.thread_sync.specs.Sync.{uncovered_to};
ghost use Rattle.event_views.specs.Asked.{told_if};
ghost use Rattle.whole_events.specs.Dispatches.{guild_updated};
ghost use Rattle.whole_events.specs.ByNote.{by_note};
ghost use Rattle.whole_events.specs.Notes.{note_of, rights_note};

use channel_events::ChannelNote;
use collections::ById;
use dispatch_types::{Dispatch, GuildUpdate};
use edit_apply::{Edit, GuildEdit};
use event_views::{Recipient, add_list_sync};
use guild_model::{Guild, Member};
use intent_set::Kind;
use message_events::MessageNote;
use overwrite_eval::MaskSource;
use role_member_events::RoleMemberNote;
use std::alloc::{AllocError, Global};
use thread_events::ThreadNote;
use thread_sync::{ChannelSight, sights_by, sights_of};

/// What is noted for a viewer that is served before an edit, by the kind of edit.
pub enum Before {
    /// The edit asks for nothing of the record before it.
    Nothing,
    /// Before another member is the owner: the sights of the channels that the viewer saw.
    Owner(ById<ChannelSight>),
    RoleMember(RoleMemberNote),
    Channel(ChannelNote),
    Thread(ThreadNote),
    Message(MessageNote),
}

impl Drop for Before {
    fn drop(self) {
        match self {
            Before::Nothing => {}
            Before::Owner(held) => drop(held),
            Before::RoleMember(held) => drop(held),
            Before::Channel(held) => drop(held),
            Before::Thread(held) => drop(held),
            Before::Message(held) => drop(held),
        }
    }
}

/// Keeps what [`add_dispatches`] has to know of the record before an edit.
///
/// # Errors
/// Out of memory.
pub fn note(alloc: Global, before: &Guild, me: &Member, edit: &Edit) -> Result<Before, AllocError>
    ensures { IfOk result (λ note. note ≡ note_of before.now me.now edit.now) }
{
    match edit {
        Edit::Guild(GuildEdit::GuildOwner { .. }) => {
            Ok(Before::Owner(sights_of(alloc, before, me)?))
        }
        Edit::RoleMember(edit) => Ok(Before::RoleMember(role_member_events::note(
            alloc, before, me, edit,
        )?)),
        Edit::Channel(edit) => Ok(Before::Channel(channel_events::note(alloc, before, me, edit)?)),
        Edit::Thread(edit) => Ok(Before::Thread(thread_events::note(before, me, edit))),
        Edit::Message(edit) => Ok(Before::Message(message_events::note(before, edit))),
        _ => Ok(Before::Nothing),
    }
}

// Whether an edit may change what a member sees.
fn asks_sights(edit: &Edit, me: &Member) -> bool
    ensures { (before : Record) → result ≡ true → note_of before me.now edit.now ≡ rights_note edit.now (sights (standing before me.now)) }
{
    match edit {
        Edit::Guild(GuildEdit::GuildOwner { .. }) => true,
        Edit::RoleMember(edit) => role_member_events::asks_sights(edit, me),
        _ => false,
    }
}

// What is noted before an edit that may change what a member sees.
fn rights_note(edit: &Edit, sights: ById<ChannelSight>) -> Before
    ensures { result ≡ rights_note edit.now sights }
{
    match edit {
        Edit::RoleMember(_) => Before::RoleMember(RoleMemberNote::Sights(sights)),
        _ => Before::Owner(sights),
    }
}

/// The same as [`note`], by what answers the masks of the member's user on the record before the edit: where the
/// edit may change what the member sees, no mask is worked out.
///
/// # Errors
/// Out of memory.
pub fn note_by<M: MaskSource>(
    alloc: Global,
    before: &Guild,
    me: &Member,
    edit: &Edit,
    masks: &M,
) -> Result<Before, AllocError>
    requires stands { M.stands_for masks.now before.now me.now.user.id }
    requires mine { find_id member_id me.now.user.id before.now.members ≡ Some me.now }
    ensures { IfOk result (λ note. note ≡ note_of before.now me.now edit.now) }
{
    if asks_sights(edit, me) {
        let sights = sights_by(alloc, before, me, masks)?;
        return Ok(rights_note(edit, sights));
    }
    note(alloc, before, me, edit)
}

// GUILD_UPDATE, with the guild's name and owner.
fn add_updated(
    alloc: Global,
    to: &Recipient<'_>,
    list: &mut Vec<Dispatch>,
) -> Result<(), AllocError>
    ensures { OnOk result (list.new.items ≡ list.old.items ++ guild_updated to.now.after to.now.viewer) }
{
    if !to.asks(Kind::GuildUpdate, false) {
        return Ok(());
    }
    let after = to.after;
    list.push(Dispatch::GuildUpdate(GuildUpdate {
        id: after.id,
        name: after.name.copy(alloc)?,
        owner: after.owner,
    }))?;
    Ok(())
}

// GUILD_UPDATE, and then what the viewer gained.
fn add_owner_updated(
    alloc: Global,
    before: &ById<ChannelSight>,
    to: &Recipient<'_>,
    list: &mut Vec<Dispatch>,
) -> Result<(), AllocError>
    ensures { OnOk result (list.new.items ≡ list.old.items ++ (guild_updated to.now.after to.now.viewer
        ++ told_if to.now.viewer (uncovered_to (by_sights before.now) to.now.after to.now.me))) }
{
    add_updated(alloc, to, list)?;
    add_list_sync(alloc, before, to, list)
}

/// Adds what an accepted edit owes to a viewer that is served before and after it, by the record after it and what
/// [`note`] kept of the record before it. Each dispatch only if the viewer's intents ask for it (Gateway, Gateway
/// Intents).
///
/// # Errors
/// Out of memory.
pub fn add_dispatches(
    alloc: Global,
    note: &Before,
    to: &Recipient<'_>,
    edit: &Edit,
    list: &mut Vec<Dispatch>,
) -> Result<(), AllocError>
    ensures { OnOk result (list.new.items ≡ list.old.items
        ++ by_note note.now to.now.after to.now.viewer to.now.me edit.now) }
{
    match (note, edit) {
        (_, Edit::Guild(GuildEdit::GuildRename { .. })) => add_updated(alloc, to, list),
        (Before::Owner(before), Edit::Guild(GuildEdit::GuildOwner { .. })) => {
            add_owner_updated(alloc, before, to, list)
        }
        (Before::RoleMember(note), Edit::RoleMember(edit)) => {
            role_member_events::add_dispatches(alloc, note, to, edit, list)
        }
        (Before::Channel(note), Edit::Channel(edit)) => {
            channel_events::add_dispatches(alloc, note, to, edit, list)
        }
        (Before::Thread(note), Edit::Thread(edit)) => {
            thread_events::add_dispatches(alloc, note, to, edit, list)
        }
        (_, Edit::VoicePresence(edit)) => voice_presence_events::add_dispatches(to, edit, list),
        (Before::Message(note), Edit::Message(edit)) => {
            message_events::add_dispatches(alloc, note, to, edit, list)
        }
        _ => Ok(()),
    }
}
