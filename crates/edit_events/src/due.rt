//! What an accepted edit owes to a viewer (Gateway Events, Receive Events).

ghost use Rattle.std.specs.Prelude.{◌≡◌, ◌++◌, IfOk, OnOk, Some, true};
ghost use Rattle.guild_model.specs.Record.{Record};
ghost use Rattle.dispatch_types.specs.Serves.{served};
ghost use Rattle.edit_apply.specs.Edits.{accepts, applied};
ghost use Rattle.edit_events.specs.Due.{guild_gone, guild_comes, due};
ghost use Rattle.edit_events.specs.ByNote.{told_by, own_by, due_between};
ghost use Rattle.edit_events.specs.Was.{will_withhold, shown_then, was_to, was_of};

use crate::create::greeting;
use channel_privacy::{ShownBefore, withhold};
use dispatch_types::{Dispatch, GuildDelete, Viewer, served};
use edit_apply::{Edit, GuildEdit};
use event_views::Recipient;
use guild_model::{Guild, Member};
use intent_set::Kind;
use snowflake_id::Snowflake;
use std::alloc::{AllocError, Global};
use whole_events::{Before, add_dispatches};

/// What has to be known of the record before an edit.
pub struct Was {
    /// Whether the viewer was served.
    pub served: bool,
    /// What the edit's own dispatches ask for.
    pub note: Before,
    /// What was shown, if channels are withheld before the edit or after it.
    pub shown: Option<ShownBefore>,
}

impl Drop for Was {
    fn drop(self) {
        let Was {
            served: _,
            note,
            shown,
        } = self;
        drop(note);
        drop(shown);
    }
}

// Whether channels are withheld before an edit or after it, and it may change what is shown or tell of a channel.
pub(crate) fn will_withhold(before: &Guild, edit: &Edit) -> bool
    ensures { result ≡ will_withhold before.now edit.now }
{
    match edit {
        Edit::Message(_) => false,
        Edit::Guild(GuildEdit::GuildPrivate { private }) => before.private || *private,
        _ => before.private,
    }
}

pub(crate) fn shown_then(
    alloc: Global,
    before: &Guild,
    me: &Member,
    withholds: bool,
) -> Result<Option<ShownBefore>, AllocError>
    ensures { IfOk result (λ shown. shown ≡ shown_then withholds before.now me.now) }
{
    if withholds {
        Ok(Some(ShownBefore::of(alloc, before, me)?))
    } else {
        Ok(None)
    }
}

fn note_for(alloc: Global, before: &Guild, edit: &Edit, me: &Member) -> Result<Was, AllocError>
    ensures { IfOk result (λ was. was ≡ was_to before.now (Some me.now) edit.now) }
{
    Ok(Was {
        served: true,
        note: whole_events::note(alloc, before, me, edit)?,
        shown: shown_then(alloc, before, me, will_withhold(before, edit))?,
    })
}

/// Keeps what [`events`] has to know of the record before an edit.
///
/// # Errors
/// Out of memory.
pub fn note(alloc: Global, before: &Guild, edit: &Edit, viewer: &Viewer) -> Result<Was, AllocError>
    ensures { IfOk result (λ was. was ≡ was_of before.now viewer.now edit.now) }
{
    match served(before, viewer) {
        Some(me) => note_for(alloc, before, edit, me),
        None => Ok(Was {
            served: false,
            note: Before::Nothing,
            shown: None,
        }),
    }
}

// GUILD_CREATE, for a viewer that was not served before, or whose guild is back from an outage.
fn add_created(
    alloc: Global,
    to: &Recipient<'_>,
    list: &mut Vec<Dispatch>,
) -> Result<(), AllocError>
    ensures { OnOk result (list.new.items ≡ list.old.items ++ guild_comes to.now.after to.now.viewer to.now.me) }
{
    if !to.asks(Kind::GuildCreate, false) {
        return Ok(());
    }
    let create = greeting(alloc, to.after, to.viewer, to.me)?;
    list.push(Dispatch::GuildCreate(create))?;
    Ok(())
}

// GUILD_DELETE, for a viewer that is no longer served, or whose guild is in an outage.
fn add_gone(
    guild: Snowflake,
    viewer: &Viewer,
    unavailable: bool,
    list: &mut Vec<Dispatch>,
) -> Result<(), AllocError>
    ensures { OnOk result (list.new.items ≡ list.old.items ++ guild_gone guild viewer.now unavailable) }
{
    if !viewer.intents.asks(Kind::GuildDelete, false) {
        return Ok(());
    }
    let delete = GuildDelete {
        id: guild,
        unavailable,
    };
    list.push(Dispatch::GuildDelete(delete))?;
    Ok(())
}

// Of the dispatches that are owed where nothing is withheld, those that are told.
pub(crate) fn told(
    alloc: Global,
    shown: &Option<ShownBefore>,
    to: &Recipient<'_>,
    list: Vec<Dispatch>,
) -> Result<Vec<Dispatch>, AllocError>
    ensures { IfOk result (λ told. told.items ≡ told_by shown.now to.now.after to.now.me to.now.viewer list.items) }
{
    match shown {
        Some(shown) => withhold(alloc, shown, to, list),
        None => Ok(list),
    }
}

// The list of an edit for a viewer that is served before and after it.
pub(crate) fn own_events(
    alloc: Global,
    was: &Was,
    to: &Recipient<'_>,
    edit: &Edit,
) -> Result<Vec<Dispatch>, AllocError>
    ensures { IfOk result (λ list. list.items ≡ own_by was.now to.now.after to.now.viewer to.now.me edit.now) }
{
    let mut list = Vec::new(alloc);
    match edit {
        Edit::Guild(GuildEdit::GuildOutage) => add_gone(to.guild(), to.viewer, true, &mut list)?,
        Edit::Guild(GuildEdit::GuildBack) => add_created(alloc, to, &mut list)?,
        _ => {
            add_dispatches(alloc, &was.note, to, edit, &mut list)?;
            return told(alloc, &was.shown, to, list);
        }
    }
    Ok(list)
}

// What an edit owes, by what was noted before it.
fn noted_events(
    alloc: Global,
    after: &Guild,
    edit: &Edit,
    was: &Was,
    viewer: &Viewer,
) -> Result<Vec<Dispatch>, AllocError>
    ensures { IfOk result (λ list. list.items
        ≡ due_between after.now viewer.now was.now (served viewer.now after.now) edit.now) }
{
    let mut list = Vec::new(alloc);
    match (was.served, served(after, viewer)) {
        (false, None) => {}
        (false, Some(me)) => {
            add_created(alloc, &Recipient::new(after, viewer, me), &mut list)?;
        }
        (true, None) => add_gone(after.id, viewer, false, &mut list)?,
        (true, Some(me)) => {
            return own_events(alloc, was, &Recipient::new(after, viewer, me), edit);
        }
    }
    Ok(list)
}

/// What an accepted edit owes to a viewer, by the record after it and what [`note`] kept of the record
/// before it: the edit's own dispatches to one that is served before and after it, GUILD_CREATE alone to
/// one that is served after it alone, GUILD_DELETE alone to one that was served before it alone, and
/// nothing to any other. Each only if the viewer's intents ask for it (Gateway, Gateway Intents), and of
/// channels only what the viewer's member is shown.
///
/// # Errors
/// Out of memory.
pub fn events(
    alloc: Global,
    after: &Guild,
    edit: &Edit,
    was: &Was,
    viewer: &Viewer,
) -> Result<Vec<Dispatch>, AllocError>
    ensures noted { IfOk result (λ list. list.items
        ≡ due_between after.now viewer.now was.now (served viewer.now after.now) edit.now) }
    ensures due { IfOk result (λ list. (before : Record) → was.now ≡ was_of before viewer.now edit.now
        → after.now ≡ applied before edit.now → accepts before edit.now ≡ true
        → list.items ≡ due before edit.now viewer.now) }
{
    let list = noted_events(alloc, after, edit, was, viewer)?;
    Ok(list)
}
