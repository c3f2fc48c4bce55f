//! The bots that may identify.

ghost use Rattle.std.specs.Prelude.{◌≡◌, IfOk};

use collections::Text;
use intent_set::Intents;
use snowflake_id::Snowflake;
use std::alloc::{AllocError, Global};

/// A bot that may identify (Gateway Events, Identify).
#[derive(Drop)]
pub struct Bot {
    /// The secret by which it identifies.
    pub token: Text,
    /// Its user.
    pub user: Snowflake,
    /// The name of its user.
    pub name: Text,
    /// The privileged intents that it may ask for.
    pub privileged: Intents,
    /// The most dispatches that a session of it keeps for a resume.
    pub ring_items: u32,
    /// The most bytes of their texts.
    pub ring_bytes: u32,
}

impl Bot {
    /// A bot equal to this one.
    ///
    /// # Errors
    /// Out of memory.
    pub fn copy(&self, alloc: Global) -> Result<Bot, AllocError>
        ensures { IfOk result (λ copy. copy ≡ self.now) }
    {
        let token = self.token.copy(alloc)?;
        let name = self.name.copy(alloc)?;
        Ok(Bot {
            token,
            user: self.user,
            name,
            privileged: self.privileged,
            ring_items: self.ring_items,
            ring_bytes: self.ring_bytes,
        })
    }
}

/// Bots equal to these, in their order.
///
/// # Errors
/// Out of memory.
pub fn copies_of(alloc: Global, bots: &[Bot]) -> Result<Vec<Bot>, AllocError>
    ensures { IfOk result (λ copies. copies.items ≡ bots.now) }
{
    let mut copies = Vec::new(alloc);
    for bot in bots {
        copies.push(bot.copy(alloc)?)?;
    }
    Ok(copies)
}
