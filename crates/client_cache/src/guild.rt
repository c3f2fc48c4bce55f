//! GUILD_CREATE and GUILD_UPDATE.

ghost use Rattle.std.specs.Prelude.{◌≡◌, ◌==◌, [], map, IfOk, OnOk};
ghost use Rattle.std.specs.Option.{option_copied};
ghost use Rattle.std.specs.List.{find, filter_map};
ghost use Rattle.collections.specs.ById.{put_all};
ghost use Rattle.intent_set.specs.Intents.{guild_members, guild_presences};
ghost use Rattle.guild_model.specs.Record.{role_id, member_id, channel_id, voice_id, presence_id};
ghost use Rattle.guild_model.specs.declared.member.Member.{Member};
ghost use Rattle.dispatch_types.specs.Objects.{channel_of, member_of, voice_of, presence_of};
ghost use Rattle.dispatch_types.specs.Projection.{listed};
ghost use Rattle.dispatch_types.specs.Fold.{thread_view_id, own_member, joined_thread, created_view};

use crate::fold::Fold;
use crate::members::members_of;
use crate::objects::{channel_of, presence_of, voice_of};
use crate::threads::joined_thread;
use collections::{ById, Duplicate, Seq, Text};
use dispatch_types::{
    ChannelObject, GuildCreate, GuildUpdate, GuildView, JoinedThread, MemberObject, OpenView,
    PresenceObject, ThreadView, VoiceObject,
};
use guild_model::{Channel, Member, Presence, Voice};
use intent_set::Intents;
use snowflake_id::Snowflake;
use std::alloc::{AllocError, Global};
use std::mem::replace;

/// Replaces the name and the owner (Gateway Events, Guild Update).
pub(crate) fn update_guild(view: &mut OpenView, update: GuildUpdate)
    ensures { view.new ≡ record view.old { name = update.name; owner = update.owner } }
{
    view.owner = update.owner;
    view.name = update.into_name();
}

fn channels_of(alloc: Global, objects: Vec<ChannelObject>) -> Result<Vec<Channel>, AllocError>
    ensures { IfOk result (λ channels. channels.items ≡ map channel_of objects.items) }
{
    let mut channels = Vec::with_capacity(alloc, objects.len())?;
    for object in objects {
        channels.push(channel_of(alloc, object)?)?;
    }
    Ok(channels)
}

fn threads_of(fold: &Fold, objects: Vec<JoinedThread>) -> Result<Vec<ThreadView>, AllocError>
    ensures { IfOk result (λ threads. threads.items
        ≡ map (joined_thread fold.now.intents fold.now.bot) objects.items) }
{
    let mut threads = Vec::with_capacity(fold.alloc, objects.len())?;
    for object in objects {
        threads.push(joined_thread(fold, object))?;
    }
    Ok(threads)
}

fn voices_of(alloc: Global, objects: &[VoiceObject]) -> Result<Vec<Voice>, AllocError>
    ensures { IfOk result (λ voices. voices.items ≡ filter_map voice_of objects.now) }
{
    objects.iter().filter_map(voice_of).collect(alloc)
}

fn presences_of(alloc: Global, objects: &[PresenceObject]) -> Result<Vec<Presence>, AllocError>
    ensures { IfOk result (λ presences. presences.items ≡ filter_map presence_of objects.now) }
{
    objects.iter().filter_map(presence_of).collect(alloc)
}

// The members, if GUILD_MEMBERS tells of them.
fn listed_members(fold: &Fold, members: Vec<Member>) -> Result<ById<Member>, AllocError>
    ensures { IfOk result (λ list. list
        ≡ listed fold.now.intents guild_members (put_all member_id [] members.items)) }
{
    if fold.intents.has(Intents::GUILD_MEMBERS) {
        ById::of(fold.alloc, members)
    } else {
        Ok(ById::new(fold.alloc))
    }
}

// The presences, if GUILD_PRESENCES tells of them.
fn listed_presences(fold: &Fold, objects: &[PresenceObject]) -> Result<ById<Presence>, AllocError>
    ensures { IfOk result (λ list. list ≡ listed fold.now.intents guild_presences
        (put_all presence_id [] (filter_map presence_of objects.now))) }
{
    if fold.intents.has(Intents::GUILD_PRESENCES) {
        ById::of(fold.alloc, presences_of(fold.alloc, objects)?)
    } else {
        Ok(ById::new(fold.alloc))
    }
}

// The first member of a user.
fn member_among(members: &[Member], user: Snowflake) -> Option<&Member>
    ensures { option_copied result ≡ find (λ (m : Member). m.user.id == user) members.now }
{
    members.iter().find(|member| member.user.id == user)
}

// A copy of the own member.
fn own_member(
    alloc: Global,
    members: &[Member],
    bot: Snowflake,
) -> Result<Option<Member>, AllocError>
    ensures { IfOk result (λ me. me ≡ find (λ (m : Member). m.user.id == bot) members.now) }
{
    match member_among(members, bot) {
        Some(me) => Ok(Some(me.duplicate(alloc)?)),
        None => Ok(None),
    }
}

// The members, and a copy of the own one.
fn told_members(
    fold: &Fold,
    objects: Seq<MemberObject>,
) -> Result<(Vec<Member>, Option<Member>), AllocError>
    ensures all { IfOk result (λ told. told.0.items ≡ map member_of objects) }
    ensures own { IfOk result (λ told. told.1 ≡ own_member fold.now.bot objects) }
{
    let members = members_of(fold.alloc, objects.into_vec())?;
    let me = own_member(fold.alloc, members.as_slice(), fold.bot)?;
    Ok((members, me))
}

// Sets the lists of a view, but not its members, by those of GUILD_CREATE.
fn fill(fold: &Fold, view: &mut OpenView, create: &mut GuildCreate) -> Result<(), AllocError>
    ensures { OnOk result (view.new ≡ record view.old {
      roles = put_all role_id [] create.old.roles;
      channels = put_all channel_id [] (map channel_of create.old.channels);
      threads = put_all thread_view_id []
          (map (joined_thread fold.now.intents fold.now.bot) create.old.threads);
      voices = put_all voice_id [] (filter_map voice_of create.old.voices);
      presences = listed fold.now.intents guild_presences
          (put_all presence_id [] (filter_map presence_of create.old.presences));
    }) }
{
    let alloc = fold.alloc;
    let roles = replace(&mut create.roles, Seq::new(alloc));
    view.roles = ById::of(alloc, roles.into_vec())?;
    let channels = replace(&mut create.channels, Seq::new(alloc));
    view.channels = ById::of(alloc, channels_of(alloc, channels.into_vec())?)?;
    let threads = replace(&mut create.threads, Seq::new(alloc));
    view.threads = ById::of(alloc, threads_of(fold, threads.into_vec())?)?;
    view.voices = ById::of(alloc, voices_of(alloc, create.voices.as_slice())?)?;
    view.presences = listed_presences(fold, create.presences.as_slice())?;
    Ok(())
}

// The view that GUILD_CREATE gives, which takes over its parts.
fn opened_view(fold: &Fold, create: &mut GuildCreate) -> Result<Option<GuildView>, AllocError>
    ensures { IfOk result (λ view. view ≡ created_view fold.now.intents fold.now.bot create.old) }
{
    let alloc = fold.alloc;
    if !fold.intents.has(Intents::GUILDS) {
        return Ok(None);
    }
    let objects = replace(&mut create.members, Seq::new(alloc));
    let (members, me) = told_members(fold, objects)?;
    let Some(me) = me else {
        return Ok(None);
    };
    let members = listed_members(fold, members)?;
    let mut view = OpenView {
        name: replace(&mut create.name, Text::empty()),
        owner: create.owner,
        me,
        roles: ById::new(alloc),
        channels: ById::new(alloc),
        members,
        member_count: fold.counted(create.member_count),
        threads: ById::new(alloc),
        voices: ById::new(alloc),
        presences: ById::new(alloc),
    };
    let Ok(()) = fill(fold, &mut view, create) else {
        drop(view);
        return Err(AllocError);
    };
    Ok(Some(GuildView::Open(view)))
}

/// The view that GUILD_CREATE gives: none without GUILDS, or if the own member is not told (Gateway
/// Events, Guild Create).
pub(crate) fn created_view(
    fold: &Fold,
    create: GuildCreate,
) -> Result<Option<GuildView>, AllocError>
    ensures { IfOk result (λ view. view ≡ created_view fold.now.intents fold.now.bot create) }
{
    let mut create = create;
    let view = opened_view(fold, &mut create);
    drop(create);
    view
}
