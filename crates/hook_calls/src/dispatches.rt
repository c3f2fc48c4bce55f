//! The dispatches of a session, in order.

use collections::{Seq, Text};
use dispatch_types::{ChannelObject, Dispatch, GuildCreate, MessageObject, Ready};
use guild_model::{ChannelKind, PartCount, User};
use snowflake_id::Snowflake;
use std::alloc::{AllocError, Global};

const GUILD: Snowflake = Snowflake(1);

const CHANNEL: Snowflake = Snowflake(7);

fn user(alloc: Global, id: u64) -> Result<User, AllocError> {
    Ok(User {
        id: Snowflake(id),
        name: Text::new(alloc, "user")?,
        bot: false,
    })
}

fn ready(alloc: Global) -> Result<Dispatch, AllocError> {
    let mut guilds = Seq::new(alloc);
    guilds.push(GUILD)?;
    Ok(Dispatch::Ready(Ready {
        user: user(alloc, 9)?,
        guilds,
        session: Text::new(alloc, "session")?,
        url: Text::new(alloc, "gate://main")?,
        shard: None,
    }))
}

fn guild(alloc: Global) -> Result<Dispatch, AllocError> {
    Ok(Dispatch::GuildCreate(GuildCreate {
        id: GUILD,
        name: Text::new(alloc, "guild")?,
        owner: Snowflake(5),
        roles: Seq::new(alloc),
        channels: Seq::new(alloc),
        members: Seq::new(alloc),
        member_count: 2,
        large: false,
        threads: Seq::new(alloc),
        voices: Seq::new(alloc),
        presences: Seq::new(alloc),
    }))
}

fn channel(alloc: Global) -> Result<ChannelObject, AllocError> {
    Ok(ChannelObject {
        guild: GUILD,
        id: CHANNEL,
        kind: ChannelKind::Text,
        name: Text::new(alloc, "channel")?,
        parent: None,
        position: 0,
        overwrites: Seq::new(alloc),
    })
}

fn message(alloc: Global, id: u64, author: u64) -> Result<Dispatch, AllocError> {
    Ok(Dispatch::MessageCreate(MessageObject {
        guild: GUILD,
        channel: CHANNEL,
        id: Snowflake(id),
        author: user(alloc, author)?,
        content: Text::new(alloc, "hi")?,
        mentions: Seq::new(alloc),
        embeds: PartCount::NONE,
        attachments: PartCount::NONE,
        components: PartCount::NONE,
    }))
}

/// READY, a guild, a channel, three messages in it, and a change of the channel.
pub fn session(alloc: Global) -> Result<Vec<Dispatch>, AllocError> {
    let mut all = Vec::new(alloc);
    all.push(ready(alloc)?)?;
    all.push(guild(alloc)?)?;
    all.push(Dispatch::ChannelCreate(channel(alloc)?))?;
    all.push(message(alloc, 30, 5)?)?;
    all.push(message(alloc, 31, 9)?)?;
    all.push(message(alloc, 32, 5)?)?;
    all.push(Dispatch::ChannelUpdate(channel(alloc)?))?;
    Ok(all)
}
