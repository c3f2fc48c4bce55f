//! GUILD_CREATE of a guild, as a viewer is told it (Gateway Events, Guild Create).

ghost use Rattle.std.specs.Prelude.{◌≡◌, IfOk, map, filter, option_map};
ghost use Rattle.collections.specs.ById.{find_id};
ghost use Rattle.guild_model.specs.Record.{thread_member_id};
ghost use Rattle.intent_set.specs.Intents.{guild_voice_states};
ghost use Rattle.dispatch_types.specs.Objects.{channel_object, member_object, voice_object, presence_object};
ghost use Rattle.dispatch_types.specs.Projection.{listed, seen_threads};
ghost use Rattle.edit_events.specs.Greeting.{is_large, is_near, is_shown, is_told, thread_told, whole_greeting, greeting};

use collections::by_id::copies;
use collections::{ById, Seq};
use dispatch_types::{
    ChannelObject, GuildCreate, JoinedThread, MemberObject, PresenceObject, ThreadObject, Viewer,
    VoiceObject,
};
use guild_model::{Channel, Guild, Member, Moment, Presence, Role, Thread, Voice};
use intent_set::Intents;
use overwrite_eval::{StandingRef, shown_channels, shown_voices};
use snowflake_id::Snowflake;
use std::alloc::{AllocError, Global};
use std::marker::Model;

/// A guild with these channels and voice states in place of its own.
#[derive(Drop)]
struct Part<'a> {
    guild: &'a Guild,
    channels: &'a ById<Channel>,
    voices: &'a ById<Voice>,
}

impl<'a> Model for Part<'a> {
    ghost use Rattle.guild_model.specs.Record.{Record};

    ghost Value = { Record };

    ghost view = { λ p. record p.guild.now {
      channels = p.channels.now;
      voices = p.voices.now;
    } };
}

// Whether the guild is large to a viewer.
fn is_large(guild: &Guild, viewer: &Viewer) -> bool
    ensures { result ≡ is_large guild.now viewer.now }
{
    guild.members.len() > viewer.threshold as usize
}

// Whether a user is the bot or is in voice.
fn is_near(part: &Part<'_>, viewer: &Viewer, user: Snowflake) -> bool
    ensures { result ≡ is_near part.now viewer.now user }
{
    let voices = part.voices;
    user == viewer.user || voices.contains(user.0)
}

// Whether a member stands in the dispatch.
fn is_shown(part: &Part<'_>, viewer: &Viewer, member: &Member) -> bool
    ensures { result ≡ is_shown part.now viewer.now member.now }
{
    let guild = part.guild;
    let user = member.user.id;
    is_near(part, viewer, user)
        || (viewer.intents.has(Intents::GUILD_PRESENCES)
            && (!is_large(guild, viewer) || guild.presences.contains(user.0)))
}

// Whether a presence stands in the dispatch.
fn is_told(part: &Part<'_>, viewer: &Viewer, presence: &Presence) -> bool
    ensures { result ≡ is_told part.now viewer.now presence.now }
{
    viewer.intents.has(Intents::GUILD_PRESENCES) || is_near(part, viewer, presence.user)
}

fn channels(
    alloc: Global,
    guild: Snowflake,
    channels: &[Channel],
) -> Result<Seq<ChannelObject>, AllocError>
    ensures { IfOk result (λ objects. objects ≡ map (channel_object guild) channels.now) }
{
    let mut objects = Seq::new(alloc);
    for channel in channels {
        objects.push(ChannelObject::of(alloc, guild, channel)?)?;
    }
    Ok(objects)
}

fn members(alloc: Global, part: &Part<'_>, viewer: &Viewer) -> Result<Seq<MemberObject>, AllocError>
    ensures { IfOk result (λ objects. objects ≡ map member_object (filter (is_shown part.now viewer.now) part.now.members)) }
{
    let guild = part.guild;
    let members = guild.members.as_slice();
    let mut objects = Seq::new(alloc);
    for member in members {
        if is_shown(part, viewer, member) {
            objects.push(MemberObject::of(alloc, member)?)?;
        }
    }
    Ok(objects)
}

// The moment at which the viewer's user joined a thread, if it is in it.
fn joined(viewer: &Viewer, thread: &Thread) -> Option<Moment>
    ensures { result ≡ option_map (λ m. m.joined) (find_id thread_member_id viewer.now.user thread.now.members) }
{
    match thread.members.get(viewer.user.0) {
        Some(member) => Some(member.joined),
        None => None,
    }
}

fn thread_told(
    alloc: Global,
    guild: &Guild,
    viewer: &Viewer,
    thread: &Thread,
) -> Result<JoinedThread, AllocError>
    ensures { IfOk result (λ told. told ≡ thread_told guild.now viewer.now thread.now) }
{
    Ok(JoinedThread {
        thread: ThreadObject::of(alloc, guild.id, thread)?,
        joined: joined(viewer, thread),
    })
}

fn threads(
    alloc: Global,
    part: &Part<'_>,
    viewer: &Viewer,
    me: &Member,
) -> Result<Seq<JoinedThread>, AllocError>
    ensures { IfOk result (λ told. told ≡ map (thread_told part.now viewer.now) (seen_threads part.now me.now)) }
{
    let guild = part.guild;
    let standing = StandingRef::new(guild.id, guild.owner, &guild.roles, part.channels, me);
    let threads = guild.threads.as_slice();
    let mut told = Seq::new(alloc);
    for thread in threads {
        if !thread.archived && standing.sees_thread(thread) {
            told.push(thread_told(alloc, guild, viewer, thread)?)?;
        }
    }
    Ok(told)
}

fn voice_list(alloc: Global, voices: &[Voice]) -> Result<Vec<VoiceObject>, AllocError>
    ensures { IfOk result (λ objects. objects.items ≡ map voice_object voices.now) }
{
    voices.iter().map(VoiceObject::of).collect(alloc)
}

fn voices(
    alloc: Global,
    voices: &ById<Voice>,
    viewer: &Viewer,
) -> Result<Seq<VoiceObject>, AllocError>
    ensures { IfOk result (λ objects. objects ≡ map voice_object (listed viewer.now.intents guild_voice_states voices.now)) }
{
    if viewer.intents.has(Intents::GUILD_VOICE_STATES) {
        Ok(Seq::from_vec(voice_list(alloc, voices.as_slice())?))
    } else {
        Ok(Seq::new(alloc))
    }
}

fn presences(
    alloc: Global,
    part: &Part<'_>,
    viewer: &Viewer,
) -> Result<Vec<PresenceObject>, AllocError>
    ensures { IfOk result (λ objects. objects.items ≡ map (presence_object part.now.id) (filter (is_told part.now viewer.now) part.now.presences)) }
{
    let guild = part.guild;
    let presences = guild.presences.as_slice();
    presences
        .iter()
        .filter(|presence| is_told(part, viewer, presence))
        .map(|presence| PresenceObject::of(guild.id, presence))
        .collect(alloc)
}

fn roles(alloc: Global, guild: &Guild) -> Result<Seq<Role>, AllocError>
    ensures { IfOk result (λ roles. roles ≡ guild.now.roles) }
{
    let roles = copies(alloc, guild.roles.as_slice())?;
    Ok(Seq::from_vec(roles))
}

#[tactic(auto, unfolding(crate::specs::Greeting::whole_greeting))]
fn whole_greeting(
    alloc: Global,
    part: &Part<'_>,
    viewer: &Viewer,
    me: &Member,
) -> Result<GuildCreate, AllocError>
    ensures { IfOk result (λ create. create ≡ whole_greeting part.now viewer.now me.now) }
{
    let (guild, shown) = (part.guild, part.channels);
    Ok(GuildCreate {
        id: guild.id,
        name: guild.name.copy(alloc)?,
        owner: guild.owner,
        roles: roles(alloc, guild)?,
        channels: channels(alloc, guild.id, shown.as_slice())?,
        members: members(alloc, part, viewer)?,
        member_count: guild.members.len() as u64,
        large: is_large(guild, viewer),
        threads: threads(alloc, part, viewer, me)?,
        voices: voices(alloc, part.voices, viewer)?,
        presences: Seq::from_vec(presences(alloc, part, viewer)?),
    })
}

/// What a viewer with this member is told of a guild that it is served: of channels and voice states those that
/// the member is shown. `large` is true above the viewer's threshold.
///
/// # Errors
/// Out of memory.
pub fn greeting(
    alloc: Global,
    guild: &Guild,
    viewer: &Viewer,
    me: &Member,
) -> Result<GuildCreate, AllocError>
    ensures { IfOk result (λ create. create ≡ greeting guild.now viewer.now me.now) }
{
    if !guild.private {
        let (channels, voices) = (&guild.channels, &guild.voices);
        let part = Part {
            guild,
            channels,
            voices,
        };
        return whole_greeting(alloc, &part, viewer, me);
    }
    let channels = shown_channels(alloc, guild, me)?;
    let voices = shown_voices(alloc, guild, me)?;
    let part = Part {
        guild,
        channels: &channels,
        voices: &voices,
    };
    whole_greeting(alloc, &part, viewer, me)
}
