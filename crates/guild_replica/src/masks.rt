//! The masks of users in a guild, those who are members of it.

ghost use Rattle.std.specs.Prelude.{◌≡◌, ◌==◌, ◌<◌, true, position, slice_get, IfOk};
ghost use Rattle.std.specs.Option.{option_copied};
ghost use Rattle.guild_model.specs.Record.{Record};
ghost use Rattle.edit_apply.specs.Edits.{accepts, applied};
ghost use Rattle.mask_cache.specs.Masks.{MasksOf};
ghost use Rattle.mask_cache.specs.Law.{Follows};
ghost use Rattle.guild_replica.specs.Replicas.{AreKept, EachKept, creates_role, is_served};

use edit_apply::{Edit, RoleMemberEdit};
use guild_model::Guild;
use mask_cache::Masks;
use snowflake_id::Snowflake;
use std::alloc::{AllocError, Global};
use std::marker::Brand;
use std::sync::ledger::{Blank, Ledger};
use step_count::Steps;

fn is_served(guild: &Guild, user: Snowflake) -> bool
    ensures { result ≡ is_served guild.now user }
{
    guild.opened && guild.member(user).is_some()
}

fn masks_for(alloc: Global, guild: &Guild, user: Snowflake) -> Result<Option<Masks>, AllocError>
    ensures { IfOk result (AreKept guild.now user) }
{
    if !is_served(guild, user) {
        return Ok(None);
    }
    let masks = Masks::new(alloc, guild, user)?;
    Ok(Some(masks))
}

/// The masks of each of these users, if it is served.
pub(crate) fn masks_of_each(
    alloc: Global,
    guild: &Guild,
    users: &[Snowflake],
) -> Result<Vec<Option<Masks>>, AllocError>
    ensures { IfOk result (λ masks. EachKept guild.now users.now masks.items) }
{
    let mut masks = Vec::with_capacity(alloc, users.len())?;
    for user in users {
        masks.push(masks_for(alloc, guild, *user)?)?;
    }
    Ok(masks)
}

/// The index of a user among these.
pub(crate) fn index_of(users: &[Snowflake], user: Snowflake) -> Option<usize>
    ensures { result ≡ position (λ one. one == user) users.now }
{
    users.iter().position(|one| *one == user)
}

/// What stands in a list of masks under an index.
pub(crate) fn masks_under(masks: &[Option<Masks>], index: usize) -> Option<&Option<Masks>>
    ensures { option_copied result ≡ slice_get masks.now index }
{
    masks.get(index)
}

fn creates_role(edit: &Edit) -> bool
    ensures { result ≡ creates_role edit.now }
{
    match edit {
        Edit::RoleMember(RoleMemberEdit::RoleCreate(_)) => true,
        _ => false,
    }
}

// Mends masks from a blank ledger: what it takes is not asked.
fn mended<L: Ledger>(
    mut masks: Masks,
    guild: &Guild,
    edit: &Edit,
    blank: Blank,
) -> Result<Masks, AllocError>
    requires name { blank.name ≡ L.name }
    requires parts { blank.parts ≡ L.parts }
    requires shared { 0 < blank.parts }
    requires follows { (before : Record) × MasksOf before masks.user masks
        × Follows before edit.now guild.now masks.user }
    ensures { IfOk result (λ mended. MasksOf guild.now masks.user mended) }
{
    let mut steps = Steps::<L>::new(blank);
    masks.mend(guild, edit, &mut steps)?;
    Ok(masks)
}

// The masks of a user after an edit, if the user is served after it.
fn masks_then(
    alloc: Global,
    masks: Option<Masks>,
    user: Snowflake,
    guild: &Guild,
    edit: &Edit,
) -> Result<Option<Masks>, AllocError>
    requires { (before : Record) × (accepts before edit.now ≡ true)
        × (guild.now ≡ applied before edit.now) × AreKept before user masks }
    ensures { IfOk result (AreKept guild.now user) }
{
    let Some(masks) = masks else {
        return masks_for(alloc, guild, user);
    };
    // A role that is created changes no mask, which rests on what all members hold; so it is worked out anew.
    if creates_role(edit) || !is_served(guild, user) {
        return masks_for(alloc, guild, user);
    }
    let masks = mended::<Brand>(masks, guild, edit, Blank::new(1))?;
    Ok(Some(masks))
}

fn mend_each(
    alloc: Global,
    masks: Vec<Option<Masks>>,
    users: &[Snowflake],
    guild: &Guild,
    edit: &Edit,
) -> Result<Vec<Option<Masks>>, AllocError>
    requires { (before : Record) × (accepts before edit.now ≡ true)
        × (guild.now ≡ applied before edit.now) × EachKept before users.now masks.items }
    ensures { IfOk result (λ masks. EachKept guild.now users.now masks.items) }
{
    let mut then = Vec::with_capacity(alloc, masks.len())?;
    for one in masks {
        let user = users[then.len()];
        then.push(masks_then(alloc, one, user, guild, edit)?)?;
    }
    Ok(then)
}

/// The masks of these users after an accepted edit, by the record after it. An edit of messages changes none.
pub(crate) fn masks_after(
    alloc: Global,
    masks: Vec<Option<Masks>>,
    users: &[Snowflake],
    guild: &Guild,
    edit: &Edit,
) -> Result<Vec<Option<Masks>>, AllocError>
    requires { (before : Record) × (accepts before edit.now ≡ true)
        × (guild.now ≡ applied before edit.now) × EachKept before users.now masks.items }
    ensures { IfOk result (λ masks. EachKept guild.now users.now masks.items) }
{
    match edit {
        Edit::Message(_) => Ok(masks),
        _ => mend_each(alloc, masks, users, guild, edit),
    }
}
