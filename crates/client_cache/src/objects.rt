//! The parts of a guild, made of their wire form.

ghost use Rattle.std.specs.Prelude.{◌≡◌, IfOk};
ghost use Rattle.std.specs.List.{filter_map};
ghost use Rattle.dispatch_types.specs.Objects.{role_overwrite, member_overwrite, overwrites_of, channel_of, member_of, thread_member_of, voice_of, presence_of};

use collections::ById;
use dispatch_types::{
    ChannelObject, MemberObject, OverwriteObject, PresenceObject, ThreadMemberObject, VoiceObject,
};
use guild_model::{
    Channel, Member, Overwrite, OverwriteKind, Overwrites, Presence, ThreadMember, Voice,
};
use std::alloc::{AllocError, Global};

fn overwrite(object: &OverwriteObject) -> Overwrite
    ensures { result
        ≡ record { id = object.now.id; allow = object.now.allow; deny = object.now.deny } }
{
    Overwrite {
        id: object.id,
        allow: object.allow,
        deny: object.deny,
    }
}

fn role_overwrite(object: &OverwriteObject) -> Option<Overwrite>
    ensures { result ≡ role_overwrite object.now }
{
    match object.kind {
        OverwriteKind::Role => Some(overwrite(object)),
        OverwriteKind::Member => None,
    }
}

fn member_overwrite(object: &OverwriteObject) -> Option<Overwrite>
    ensures { result ≡ member_overwrite object.now }
{
    match object.kind {
        OverwriteKind::Role => None,
        OverwriteKind::Member => Some(overwrite(object)),
    }
}

fn role_overwrites(alloc: Global, objects: &[OverwriteObject]) -> Result<Vec<Overwrite>, AllocError>
    ensures { IfOk result (λ list. list.items ≡ filter_map role_overwrite objects.now) }
{
    objects.iter().filter_map(role_overwrite).collect(alloc)
}

fn member_overwrites(
    alloc: Global,
    objects: &[OverwriteObject],
) -> Result<Vec<Overwrite>, AllocError>
    ensures { IfOk result (λ list. list.items ≡ filter_map member_overwrite objects.now) }
{
    objects.iter().filter_map(member_overwrite).collect(alloc)
}

fn overwrites_of(alloc: Global, objects: &[OverwriteObject]) -> Result<Overwrites, AllocError>
    ensures { IfOk result (λ overwrites. overwrites ≡ overwrites_of objects.now) }
{
    Ok(Overwrites {
        roles: ById::of(alloc, role_overwrites(alloc, objects)?)?,
        members: ById::of(alloc, member_overwrites(alloc, objects)?)?,
    })
}

/// The channel of a channel object.
pub(crate) fn channel_of(alloc: Global, object: ChannelObject) -> Result<Channel, AllocError>
    ensures { IfOk result (λ channel. channel ≡ channel_of object) }
{
    let overwrites = overwrites_of(alloc, object.overwrites.as_slice())?;
    Ok(Channel {
        id: object.id,
        kind: object.kind,
        parent: object.parent,
        position: object.position,
        name: object.into_name(),
        overwrites,
    })
}

/// The member of a member object.
pub(crate) fn member_of(alloc: Global, object: MemberObject) -> Result<Member, AllocError>
    ensures { IfOk result (λ member. member ≡ member_of object) }
{
    let (joined, timeout) = (object.joined, object.timeout);
    let (user, nick, roles) = object.into_parts();
    Ok(Member {
        user,
        nick,
        roles: ById::of(alloc, roles.into_vec())?,
        joined,
        timeout,
    })
}

/// The membership of a thread member object.
pub(crate) fn thread_member_of(object: &ThreadMemberObject) -> ThreadMember
    ensures { result ≡ thread_member_of object.now }
{
    ThreadMember {
        user: object.user,
        joined: object.joined,
    }
}

/// The voice state of a voice state object; `None` if the user is no longer in voice.
pub(crate) fn voice_of(object: &VoiceObject) -> Option<Voice>
    ensures { result ≡ voice_of object.now }
{
    match object.channel {
        Some(channel) => Some(Voice {
            user: object.user,
            channel,
            self_mute: object.self_mute,
            self_deaf: object.self_deaf,
        }),
        None => None,
    }
}

/// The presence of a presence object; `None` if the user is offline.
pub(crate) fn presence_of(object: &PresenceObject) -> Option<Presence>
    ensures { result ≡ presence_of object.now }
{
    match object.status {
        Some(status) => Some(Presence {
            user: object.user,
            status,
        }),
        None => None,
    }
}
