//! The latest messages of a guild. They are kept under their ids and listed by their channels, so that
//! one is found, changed and taken away, the oldest goes, and those of a channel go, without a walk
//! through the others.

ghost use Rattle.std.specs.Prelude.{◌≡◌, ℕ, List, [], None, IfOk, OnOk, OnErr, nat_eq};
ghost use Rattle.std.specs.Map.{remove_entry};
ghost use Rattle.std.specs.Option.{option_copied};
ghost use Rattle.std.specs.NonZero.{non_zero_usize_get};
ghost use Rattle.lru.specs.LruCache.{lru_cache};
ghost use Rattle.guild_model.specs.Heads.{find_head, has_head, arrived, without_head, without_channel, mentioning, arrivals, AreIndexed, IsKept};

use crate::channel_index::ChannelIndex;
use crate::limits;
use crate::message::MessageHead;
use collections::{Duplicate, Seq};
use lru::LruCache;
use snowflake_id::Snowflake;
use std::alloc::{AllocError, Global};
use std::marker::Model;
use std::num::NonZeroUsize;

fn number(id: Snowflake) -> u64
    ensures { result ≡ id }
{
    id.0
}

fn room() -> NonZeroUsize
    ensures { non_zero_usize_get result ≡ 16384 }
{
    NonZeroUsize::new(limits::MESSAGES as usize).unwrap()
}

fn empty(alloc: Global) -> Result<LruCache<u64, MessageHead>, AllocError>
    ensures { IfOk result (λ heads. heads ≡ lru_cache [] 16384) }
{
    LruCache::sparse(alloc, room())
}

fn found(heads: &LruCache<u64, MessageHead>, id: Snowflake) -> Option<&MessageHead>
    requires { IsKept heads.now }
    ensures { option_copied result ≡ find_head id (arrivals heads.now.entries) }
{
    heads.peek(&id.0)
}

// The oldest goes out of a full cache, and then out of the index too.
fn add(
    heads: &mut LruCache<u64, MessageHead>,
    index: &mut ChannelIndex,
    head: MessageHead,
) -> Result<(), AllocError>
    requires kept { IsKept heads.old }
    requires indexed { AreIndexed index.old heads.old.entries }
    requires free { find_head head.id (arrivals heads.old.entries) ≡ None }
    ensures ok { OnOk result (arrivals heads.new.entries ≡ arrived head (arrivals heads.old.entries)) }
    ensures kept { OnOk result (IsKept heads.new) }
    ensures err { OnErr result (heads.new ≡ heads.old) }
    ensures indexed { AreIndexed index.new heads.new.entries }
{
    let (channel, id) = (number(head.channel), number(head.id));
    index.add(channel, id)?;
    match heads.push(id, head) {
        Ok(None) => Ok(()),
        Ok(Some((id, oldest))) => {
            index.remove(number(oldest.channel), id);
            Ok(())
        }
        Err(refused) => {
            index.remove(channel, id);
            Err(refused.into())
        }
    }
}

fn take(heads: &mut LruCache<u64, MessageHead>, index: &mut ChannelIndex, id: u64)
    requires kept { IsKept heads.old }
    requires indexed { AreIndexed index.old heads.old.entries }
    ensures entries { heads.new.entries ≡ remove_entry (nat_eq id) heads.old.entries }
    ensures heads { arrivals heads.new.entries ≡ without_head id (arrivals heads.old.entries) }
    ensures kept { IsKept heads.new }
    ensures indexed { AreIndexed index.new heads.new.entries }
{
    if let Some(head) = heads.pop(&id) {
        index.remove(number(head.channel), id);
    }
}

fn take_in(heads: &mut LruCache<u64, MessageHead>, index: &mut ChannelIndex, channel: u64)
    requires kept { IsKept heads.old }
    requires indexed { AreIndexed index.old heads.old.entries }
    ensures heads { arrivals heads.new.entries ≡ without_channel channel (arrivals heads.old.entries) }
    ensures kept { IsKept heads.new }
    ensures indexed { AreIndexed index.new heads.new.entries }
{
    while let Some(id) = index.first_in(channel) {
        take(heads, index, id);
    }
}

// None goes to another channel.
fn mention(heads: &mut LruCache<u64, MessageHead>, id: Snowflake, mentions: Seq<Snowflake>)
    requires { IsKept heads.old }
    ensures heads { arrivals heads.new.entries ≡ mentioning id mentions (arrivals heads.old.entries) }
    ensures kept { IsKept heads.new }
    ensures indexed { (ps : List (ℕ × ℕ)) → AreIndexed ps heads.old.entries → AreIndexed ps heads.new.entries }
{
    if let Some(head) = heads.peek_mut(&id.0) {
        head.mentions = mentions;
    }
}

fn copied(
    alloc: Global,
    heads: &LruCache<u64, MessageHead>,
) -> Result<LruCache<u64, MessageHead>, AllocError>
    requires { IsKept heads.now }
    ensures { IfOk result (λ copy. copy ≡ heads.now) }
{
    let mut copy = empty(alloc)?;
    for (id, head) in heads.iter() {
        copy.put(*id, head.duplicate(alloc)?)?;
        copy.demote(id);
    }
    Ok(copy)
}

/// The latest messages of a guild, in order of arrival.
#[derive(Drop)]
pub struct MessageHeads {
    heads: Option<LruCache<u64, MessageHead>>,
    index: ChannelIndex,
    alloc: Global,
}

impl Model for MessageHeads {
    ghost use Rattle.std.specs.Prelude.{List};
    ghost use Rattle.guild_model.specs.declared.message.MessageHead.{MessageHead};
    ghost use Rattle.guild_model.specs.Heads.{heads_of, AreKept};

    ghost Value = { List MessageHead };

    ghost view = { λ m. heads_of m.heads };

    ghost invariant = { λ m. AreKept m.heads m.index };
}

impl MessageHeads {
    /// No message.
    pub fn new(alloc: Global) -> MessageHeads
        ensures { result ≡ [] }
    {
        MessageHeads {
            heads: None,
            index: ChannelIndex::new(alloc),
            alloc,
        }
    }

    /// Whether a message of an id is kept.
    pub fn contains(&self, id: Snowflake) -> bool
        ensures { result ≡ has_head id self.now }
    {
        self.get(id).is_some()
    }

    /// Adds a message that does not exist yet as the newest; the oldest goes where there were
    /// [`limits::MESSAGES`]. An `Err` changes nothing.
    pub fn push(&mut self, head: MessageHead) -> Result<(), AllocError>
        requires { find_head head.id self.old ≡ None }
        ensures ok { OnOk result (self.new ≡ arrived head self.old) }
        ensures err { OnErr result (self.new ≡ self.old) }
    {
        if let Some(heads) = &mut self.heads {
            return add(heads, &mut self.index, head);
        }
        let mut heads = empty(self.alloc)?;
        add(&mut heads, &mut self.index, head)?;
        self.heads = Some(heads);
        Ok(())
    }

    /// Removes the message of an id, if there is one.
    pub fn remove(&mut self, id: Snowflake)
        ensures { self.new ≡ without_head id self.old }
    {
        if let Some(heads) = &mut self.heads {
            take(heads, &mut self.index, id.0);
        }
    }

    /// Removes the messages of a channel or a thread, without a look at the others.
    pub fn remove_in(&mut self, channel: Snowflake)
        ensures { self.new ≡ without_channel channel self.old }
    {
        if let Some(heads) = &mut self.heads {
            take_in(heads, &mut self.index, channel.0);
        }
    }

    /// Has the message of an id, if there is one, mention these users.
    pub fn set_mentions(&mut self, id: Snowflake, mentions: Seq<Snowflake>)
        ensures { self.new ≡ mentioning id mentions self.old }
    {
        if let Some(heads) = &mut self.heads {
            mention(heads, id, mentions);
        }
    }

    /// The message of an id. `None` exactly if there is none.
    pub fn get(&self, id: Snowflake) -> Option<&MessageHead>
        ensures { option_copied result ≡ find_head id self.now }
    {
        match &self.heads {
            Some(heads) => found(heads, id),
            None => None,
        }
    }
}

impl Duplicate for MessageHeads {
    fn duplicate(&self, alloc: Global) -> Result<MessageHeads, AllocError> {
        match &self.heads {
            Some(heads) => Ok(MessageHeads {
                heads: Some(copied(alloc, heads)?),
                index: self.index.duplicate(alloc)?,
                alloc,
            }),
            None => Ok(MessageHeads::new(alloc)),
        }
    }
}
