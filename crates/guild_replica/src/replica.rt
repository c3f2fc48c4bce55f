//! A worker's copy of a guild.

ghost use Rattle.std.specs.Prelude.{◌≡◌, ◌&&◌, [], true, is_some, IfOk, IfSome, OnErr, OnOk};
ghost use Rattle.collections.specs.ById.{has_id};
ghost use Rattle.guild_model.specs.Record.{Record, member_id};
ghost use Rattle.dispatch_types.specs.Fold.{contains};
ghost use Rattle.dispatch_types.specs.Serves.{served};
ghost use Rattle.edit_apply.specs.Edits.{accepts, applied};
ghost use Rattle.edit_events.specs.ByNote.{due_between};
ghost use Rattle.edit_events.specs.Due.{due};
ghost use Rattle.edit_events.specs.Forms.{form_between};
ghost use Rattle.edit_events.specs.Was.{was_of};
ghost use Rattle.mask_cache.specs.Masks.{MasksOf};

use crate::masks::{index_of, masks_after, masks_of_each, masks_under};
use collections::Keyed;
use dispatch_types::{Dispatch, Viewer};
use edit_apply::{Edit, make};
use edit_events::{Was, events, events_by, form_by, form_for, note, note_by};
use guild_model::Guild;
use mask_cache::Masks;
use message_events::MessageForm;
use snowflake_id::Snowflake;
use std::alloc::{AllocError, Global};
use std::marker::Model;
use std::mem;

/// A copy of a guild: the record after the entries of its log that were made, and masks of the bots that are
/// served, from one entry to the next.
pub struct Replica {
    guild: Guild,
    /// The users that [`Replica::keep_masks`] was given.
    users: Vec<Snowflake>,
    /// For each of them, by its index, its masks on this very record, if the guild is open and the user is a
    /// member.
    masks: Vec<Option<Masks>>,
}

impl Drop for Replica {
    fn drop(self) {
        let Replica {
            guild,
            users,
            masks,
        } = self;
        drop(guild);
        drop(users);
        drop(masks);
    }
}

impl Model for Replica {
    ghost use Rattle.guild_replica.specs.Replicas.{GuildCopy, EachKept};

    ghost Value = { GuildCopy };

    ghost view = { λ r. record { guild = r.guild; users = r.users.items } };

    ghost invariant = { λ r. EachKept r.guild r.users.items r.masks.items };
}

impl Keyed for Replica {
    ghost key = { λ r. r.guild.id };

    fn key(&self) -> u64 {
        self.guild.id.0
    }
}

impl Replica {
    /// A copy of a guild, without users and masks. Does not allocate.
    pub fn new(alloc: Global, guild: Guild) -> Replica
        ensures { result ≡ record { guild = guild; users = [] } }
    {
        Replica {
            guild,
            users: Vec::new(alloc),
            masks: Vec::new(alloc),
        }
    }

    /// The record.
    pub fn guild(&self) -> &Guild
        ensures { result.now ≡ self.now.guild }
    {
        &self.guild
    }

    /// The users that [`Replica::keep_masks`] was given.
    pub fn users(&self) -> &[Snowflake]
        ensures { result.now ≡ self.now.users }
    {
        self.users.as_slice()
    }

    /// Keeps the masks of those of these users who are members of the guild, if it is open, until it is given
    /// other users. An edit that makes another of them a member has its masks kept from then on.
    ///
    /// # Errors
    /// Out of memory: nothing has changed then.
    pub fn keep_masks(&mut self, alloc: Global, users: &[Snowflake]) -> Result<(), AllocError>
        ensures ok { OnOk result (self.new ≡ record self.old { users = users.now }) }
        ensures err { OnErr result (self.new ≡ self.old) }
    {
        if self.users.as_slice() == users {
            return Ok(());
        }
        let kept = Vec::from_slice(alloc, users)?;
        self.masks = masks_of_each(alloc, &self.guild, users)?;
        self.users = kept;
        Ok(())
    }

    /// Makes an edit that is accepted, and mends the masks.
    ///
    /// # Errors
    /// Out of memory. Then no masks are kept until [`Replica::keep_masks`] is called.
    pub fn make(&mut self, alloc: Global, edit: &Edit) -> Result<(), AllocError>
        requires { accepts self.old.guild edit.now ≡ true }
        ensures { OnOk result (self.new ≡ record self.old { guild = applied self.old.guild edit.now }) }
    {
        let users = mem::replace(&mut self.users, Vec::new(alloc));
        let masks = mem::replace(&mut self.masks, Vec::new(alloc));
        make(alloc, &mut self.guild, edit.copy(alloc)?)?;
        self.masks = masks_after(alloc, masks, users.as_slice(), &self.guild, edit)?;
        self.users = users;
        Ok(())
    }

    /// The masks of a user. `None` exactly if the user is none of those of [`Replica::keep_masks`], or no member of
    /// the guild, or the guild is not open. Does not allocate.
    pub fn masks(&self, user: Snowflake) -> Option<&Masks>
        ensures lent { IfSome result (λ masks. MasksOf self.now.guild user masks.now) }
        ensures there { is_some result ≡ ((self.now.guild.opened && has_id member_id user self.now.guild.members)
            && contains user self.now.users) }
    {
        let Some(index) = index_of(self.users.as_slice(), user) else {
            return None;
        };
        let Some(kept) = masks_under(self.masks.as_slice(), index) else {
            return None;
        };
        kept.as_ref()
    }

    // The masks under an index, if they are those of the user.
    fn masks_at(&self, index: usize, user: Snowflake) -> Option<&Masks>
        ensures { IfSome result (λ masks. MasksOf self.now.guild user masks.now) }
    {
        let Some(Some(masks)) = masks_under(self.masks.as_slice(), index) else {
            return None;
        };
        if masks.user() == user {
            Some(masks)
        } else {
            None
        }
    }

    /// What [`Replica::events`] has to know of the record before an edit. `index` is that of the viewer's user among
    /// those of [`Replica::keep_masks`]; with another the answer is the same, and takes longer.
    ///
    /// # Errors
    /// Out of memory.
    pub fn note(
        &self,
        alloc: Global,
        edit: &Edit,
        viewer: &Viewer,
        index: usize,
    ) -> Result<Was, AllocError>
        ensures { IfOk result (λ was. was ≡ was_of self.now.guild viewer.now edit.now) }
    {
        match self.masks_at(index, viewer.user) {
            Some(masks) => note_by(alloc, &self.guild, edit, viewer, masks),
            None => note(alloc, &self.guild, edit, viewer),
        }
    }

    /// What an accepted edit owes to a viewer, by the record after it and what [`Replica::note`] kept of the record
    /// before it. `index` is as there.
    ///
    /// # Errors
    /// Out of memory.
    pub fn events(
        &self,
        alloc: Global,
        edit: &Edit,
        was: &Was,
        viewer: &Viewer,
        index: usize,
    ) -> Result<Vec<Dispatch>, AllocError>
        ensures noted { IfOk result (λ list. list.items
            ≡ due_between self.now.guild viewer.now was.now (served viewer.now self.now.guild) edit.now) }
        ensures due { IfOk result (λ list. (before : Record) → was.now ≡ was_of before viewer.now edit.now
            → self.now.guild ≡ applied before edit.now → accepts before edit.now ≡ true
            → list.items ≡ due before edit.now viewer.now) }
    {
        match self.masks_at(index, viewer.user) {
            Some(masks) => events_by(alloc, &self.guild, edit, was, viewer, masks),
            None => events(alloc, &self.guild, edit, was, viewer),
        }
    }

    /// How an edit of messages, reactions or typing is told a viewer that is served before and after it, by the
    /// record after it; `None` exactly if it is another edit or the viewer is not. `index` is that of the
    /// viewer's user among those of [`Replica::keep_masks`]; with another the answer is the same, and takes
    /// longer. Does not allocate.
    pub fn form_for(
        &self,
        edit: &Edit,
        was: &Was,
        viewer: &Viewer,
        index: usize,
    ) -> Option<MessageForm>
        ensures { result ≡ form_between self.now.guild viewer.now was.now
            (served viewer.now self.now.guild) edit.now }
    {
        match self.masks_at(index, viewer.user) {
            Some(masks) => form_by(&self.guild, edit, was, viewer, masks),
            None => form_for(&self.guild, edit, was, viewer),
        }
    }
}
