//! Which messages stand in which channel. Those of one channel lie side by side, so that they are found
//! without a look at the others.

ghost use Rattle.std.specs.Prelude.{◌≡◌, [], true, OnOk, OnErr, IfOk, IfSome, IfNone};
ghost use Rattle.guild_model.specs.ChannelIndex.{is_indexed, Joins, Leaves, IsBare};

use collections::Duplicate;
use std::alloc::{AllocError, Global};
use std::collections::BTreeSet;
use std::marker::Model;

/// The ids of messages, by channel or thread.
#[derive(Drop)]
pub struct ChannelIndex {
    pairs: BTreeSet<(u64, u64)>,
}

impl Model for ChannelIndex {
    ghost use Rattle.std.specs.Prelude.{ℕ, List};

    ghost Value = { List (ℕ × ℕ) };

    ghost view = { λ index. index.pairs.keys };
}

impl ChannelIndex {
    /// An index of no message.
    pub fn new(alloc: Global) -> ChannelIndex
        ensures { result ≡ [] }
    {
        ChannelIndex {
            pairs: BTreeSet::new(alloc),
        }
    }

    /// Says that a message stands in a channel. An `Err` changes nothing.
    pub fn add(&mut self, channel: u64, id: u64) -> Result<(), AllocError>
        ensures ok { OnOk result (Joins self.old channel id self.new) }
        ensures err { OnErr result (self.new ≡ self.old) }
    {
        self.pairs.insert((channel, id))?;
        Ok(())
    }

    /// No longer says that a message stands in a channel.
    pub fn remove(&mut self, channel: u64, id: u64)
        ensures { Leaves self.old channel id self.new }
    {
        self.pairs.remove(&(channel, id));
    }

    /// A message of a channel. `None` exactly if none stands there.
    pub fn first_in(&self, channel: u64) -> Option<u64>
        ensures there { IfSome result (λ id. is_indexed self.now channel id ≡ true) }
        ensures bare { IfNone result (IsBare self.now channel) }
    {
        let Some(&(found, id)) = self.pairs.range((channel, 0)..).next() else {
            return None;
        };
        if found == channel { Some(id) } else { None }
    }
}

impl Duplicate for ChannelIndex {
    fn duplicate(&self, _alloc: Global) -> Result<ChannelIndex, AllocError> {
        Ok(ChannelIndex {
            pairs: self.pairs.clone()?,
        })
    }
}
