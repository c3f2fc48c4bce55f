//! The entries of all guilds, and which of them have a view.

ghost use Rattle.std.specs.Prelude.{◌≡◌, [], None, map, is_some, if◌then◌else◌, OnOk, OnErr, IfOk};
ghost use Rattle.std.specs.Option.{option_copied};
ghost use Rattle.collections.specs.ById.{IsById, put_id, put_all, without_id};
ghost use Rattle.intent_set.specs.Intents.{guilds};
ghost use Rattle.guild_model.specs.Record.{own_id};
ghost use Rattle.dispatch_types.specs.Projection.{listed};
ghost use Rattle.client_cache.specs.Cached.{held_id, held_in, entry_of, taken_out, entry_after, entry_purged, unavailable_entry, AreViewed};
ghost use Rattle.client_cache.specs.Settled.{may_hide, purged_at};

use crate::fold::Fold;
use crate::held::HeldGuild;
use crate::purge::{Purge, may_hide};
use collections::ById;
use dispatch_types::{Dispatch, GuildView};
use intent_set::Intents;
use snowflake_id::Snowflake;
use std::alloc::{AllocError, Global};
use std::marker::Model;

/// What a client holds of each guild.
pub(crate) struct Guilds {
    entries: ById<HeldGuild>,
    /// The guilds that have a view, kept for `Cache::guilds` alone.
    viewed: ById<Snowflake>,
    /// Guilds that may hold threads the bot does not see; all others are purged.
    unsettled: ById<Snowflake>,
}

impl Drop for Guilds {
    fn drop(self) {
        let Guilds {
            entries,
            viewed,
            unsettled,
        } = self;
        drop(entries);
        drop(viewed);
        drop(unsettled);
    }
}

impl Model for Guilds {
    ghost use Rattle.std.specs.Prelude.{List};
    ghost use Rattle.client_cache.specs.declared.held.HeldGuild.{HeldGuild};
    ghost use Rattle.client_cache.specs.Cached.{AreViewed};
    ghost use Rattle.client_cache.specs.Settled.{AreSettled};

    ghost Value = { List HeldGuild };

    ghost view = { λ g. g.entries };

    ghost invariant = { λ g. AreViewed g.viewed g.entries × AreSettled g.unsettled g.entries };
}

fn view_in(entries: &ById<HeldGuild>, guild: Snowflake) -> Option<&GuildView>
    ensures { option_copied result ≡ (held_in 0 entries.now guild).view }
{
    match entries.get(guild.0) {
        Some(entry) => entry.view.as_ref(),
        None => None,
    }
}

fn known_in(entries: &ById<HeldGuild>, guild: Snowflake) -> &[Snowflake]
    ensures { result.now ≡ (held_in 0 entries.now guild).known }
{
    match entries.get(guild.0) {
        Some(entry) => entry.known.as_slice(),
        None => &[],
    }
}

fn has_view(entries: &ById<HeldGuild>, guild: Snowflake) -> bool
    ensures { result ≡ is_some (held_in 0 entries.now guild).view }
{
    view_in(entries, guild).is_some()
}

// Takes out the entry of a guild, so that it changes without a copy, and leaves an empty one in its
// place. A guild that has none gets an empty entry, which is not in the list.
fn entry_or_empty(alloc: Global, entries: &mut ById<HeldGuild>, guild: Snowflake) -> HeldGuild
    ensures entry { result ≡ entry_of guild entries.old }
    ensures left { entries.new ≡ taken_out guild entries.old }
{
    let empty = HeldGuild::empty(alloc, guild);
    if entries.contains(guild.0) {
        entries.exchange(empty)
    } else {
        empty
    }
}

// Folds a dispatch of a guild into its entry.
fn change_entry(
    fold: &Fold,
    entries: &mut ById<HeldGuild>,
    guild: Snowflake,
    dispatch: Dispatch,
) -> Result<(), AllocError>
    ensures ok { OnOk result (entries.new ≡ put_id held_id
        (entry_after fold.now.intents fold.now.bot dispatch (entry_of guild entries.old))
        entries.old) }
    ensures err { OnErr result (entries.new ≡ entries.old) }
{
    // Brings the list's invariant into the proof.
    let _entries = entries.as_slice();
    let mut entry = entry_or_empty(fold.alloc, entries, guild);
    let changed = fold.change(&mut entry, dispatch);
    if entries.contains(guild.0) {
        entries.replace(entry);
        return changed;
    }
    let Ok(()) = changed else {
        drop(entry);
        return Err(AllocError);
    };
    entries.put(entry)
}

// Marks a guild if the bot may see less of its threads.
fn unsettle(
    unsettled: &mut ById<Snowflake>,
    guild: Snowflake,
    may_hide: bool,
) -> Result<(), AllocError>
    ensures ok { OnOk result (unsettled.new
        ≡ (if may_hide then put_id own_id guild unsettled.old else unsettled.old)) }
    ensures err { OnErr result (unsettled.new ≡ unsettled.old) }
{
    if may_hide {
        unsettled.put(guild)
    } else {
        Ok(())
    }
}

// Drops the threads of these guilds that the bot does not see.
fn purge_at(entries: &mut ById<HeldGuild>, guilds: &[Snowflake])
    ensures { entries.new ≡ purged_at guilds.now entries.old }
{
    for guild in guilds {
        entries.change(guild.0, Purge);
    }
}

// Empties the list, which keeps its room.
fn settle(unsettled: &mut ById<Snowflake>)
    ensures { unsettled.new ≡ [] }
{
    unsettled.retain(|_| false);
}

// A guild that was listed stays so if it has a view.
fn relist(viewed: &mut ById<Snowflake>, guild: Snowflake, has_view: bool)
    ensures { viewed.new ≡ (if has_view then viewed.old else without_id own_id guild viewed.old) }
{
    if !has_view {
        viewed.remove(guild.0);
    }
}

fn unavailable_entries(fold: &Fold, ids: &[Snowflake]) -> Result<Vec<HeldGuild>, AllocError>
    ensures { IfOk result (λ entries. entries.items
        ≡ map (unavailable_entry fold.now.intents) ids.now) }
{
    let mut entries = Vec::with_capacity(fold.alloc, ids.len())?;
    for id in ids {
        entries.push(HeldGuild::unavailable(fold, *id))?;
    }
    Ok(entries)
}

// The guilds that READY names have a view, if GUILDS tells of them.
fn unavailable_viewed(fold: &Fold, ids: &[Snowflake]) -> Result<ById<Snowflake>, AllocError>
    ensures { IfOk result (λ viewed. viewed
        ≡ listed fold.now.intents guilds (put_all own_id [] ids.now)) }
{
    if fold.intents.has(Intents::GUILDS) {
        ById::of(fold.alloc, Vec::from_slice(fold.alloc, ids)?)
    } else {
        Ok(ById::new(fold.alloc))
    }
}

impl Guilds {
    /// No guilds.
    pub(crate) fn new(alloc: Global) -> Guilds
        ensures { result ≡ [] }
    {
        Guilds {
            entries: ById::new(alloc),
            viewed: ById::new(alloc),
            unsettled: ById::new(alloc),
        }
    }

    /// The view of a guild; `None` exactly if there is none.
    pub(crate) fn view(&self, guild: Snowflake) -> Option<&GuildView>
        ensures { option_copied result ≡ (held_in 0 self.now guild).view }
    {
        view_in(&self.entries, guild)
    }

    /// The users that the client was told of in a guild, ascending.
    pub(crate) fn known(&self, guild: Snowflake) -> &[Snowflake]
        ensures { result.now ≡ (held_in 0 self.now guild).known }
    {
        known_in(&self.entries, guild)
    }

    /// The guilds that have a view, ascending.
    pub(crate) fn viewed(&self) -> &[Snowflake]
        ensures ascending { IsById own_id result.now }
        ensures exact { AreViewed result.now self.now }
    {
        self.viewed.as_slice()
    }

    /// Folds a dispatch of a guild into what is held of it. The guild is marked and listed first,
    /// so that out of memory changes nothing. A guild that is marked and did not change does no
    /// harm.
    pub(crate) fn change(
        &mut self,
        fold: &Fold,
        guild: Snowflake,
        dispatch: Dispatch,
    ) -> Result<(), AllocError>
        ensures ok { OnOk result (self.new ≡ put_id held_id
            (entry_after fold.now.intents fold.now.bot dispatch (entry_of guild self.old))
            self.old) }
        ensures err { OnErr result (self.new ≡ self.old) }
    {
        let Ok(()) = unsettle(&mut self.unsettled, guild, may_hide(&dispatch)) else {
            drop(dispatch);
            return Err(AllocError);
        };
        let Ok(()) = self.viewed.put(guild) else {
            drop(dispatch);
            return Err(AllocError);
        };
        let changed = change_entry(fold, &mut self.entries, guild, dispatch);
        relist(&mut self.viewed, guild, has_view(&self.entries, guild));
        changed
    }

    /// Drops the threads that the bot does not see, at the cost of the guilds that may have such.
    pub(crate) fn purge(&mut self)
        ensures { self.new ≡ map entry_purged self.old }
    {
        // Brings the list's invariant into the proof.
        let _entries = self.entries.as_slice();
        purge_at(&mut self.entries, self.unsettled.as_slice());
        settle(&mut self.unsettled);
    }

    /// Holds the guilds that READY names, each unavailable so far, and no other.
    pub(crate) fn begin(&mut self, fold: &Fold, ids: &[Snowflake]) -> Result<(), AllocError>
        ensures ok { OnOk result (self.new
            ≡ put_all held_id [] (map (unavailable_entry fold.now.intents) ids.now)) }
        ensures err { OnErr result (self.new ≡ self.old) }
    {
        let viewed = unavailable_viewed(fold, ids)?;
        let entries = ById::of(fold.alloc, unavailable_entries(fold, ids)?)?;
        self.entries = entries;
        self.viewed = viewed;
        Ok(())
    }
}
