//! GUILD_MEMBER_ADD, GUILD_MEMBER_UPDATE, GUILD_MEMBER_REMOVE and GUILD_MEMBERS_CHUNK.

ghost use Rattle.std.specs.Prelude.{◌≡◌, map, OnOk, OnErr, IfOk};
ghost use Rattle.std.specs.Vec.Iter.{into_iter_items};
ghost use Rattle.intent_set.specs.Intents.{guild_members};
ghost use Rattle.collections.specs.ById.{put_id, put_all};
ghost use Rattle.guild_model.specs.Record.{member_id};
ghost use Rattle.dispatch_types.specs.Objects.{member_of};
ghost use Rattle.dispatch_types.specs.Projection.{listed};
ghost use Rattle.dispatch_types.specs.Fold.{one_more, one_less, add_member, update_member, remove_member, set_members};

use crate::fold::Fold;
use crate::objects::member_of;
use collections::{ById, Duplicate, Seq};
use dispatch_types::{GuildMember, GuildMemberRemove, MemberObject, OpenView};
use guild_model::Member;
use intent_set::Intents;
use std::alloc::{AllocError, Global};

fn one_more(count: u64) -> u64
    ensures { result ≡ one_more count }
{
    count.saturating_add(1)
}

fn one_less(count: u64) -> u64
    ensures { result ≡ one_less count }
{
    count.saturating_sub(1)
}

// Adds or replaces a member, if GUILD_MEMBERS tells of members; else there are none.
fn set_listed(fold: &Fold, members: &mut ById<Member>, member: Member) -> Result<(), AllocError>
    ensures ok { OnOk result (members.new
        ≡ listed fold.now.intents guild_members (put_id member_id member members.old)) }
    ensures err { OnErr result (members.new ≡ members.old) }
{
    if fold.intents.has(Intents::GUILD_MEMBERS) {
        members.put(member)
    } else {
        *members = ById::new(fold.alloc);
        Ok(())
    }
}

/// Adds a member, and counts one more (Gateway Events, Guild Member Add).
pub(crate) fn add_member(
    fold: &Fold,
    view: &mut OpenView,
    add: GuildMember,
) -> Result<(), AllocError>
    ensures ok { OnOk result (view.new
        ≡ add_member fold.now.intents (member_of add.member) view.old) }
    ensures err { OnErr result (view.new ≡ view.old) }
{
    let member = member_of(fold.alloc, add.into_member())?;
    set_listed(fold, &mut view.members, member)?;
    view.member_count = view.member_count.map(one_more);
    Ok(())
}

/// Replaces a member, and the own member if it is that (Gateway Events, Guild Member Update).
pub(crate) fn update_member(
    fold: &Fold,
    view: &mut OpenView,
    update: GuildMember,
) -> Result<(), AllocError>
    ensures ok { OnOk result (view.new
        ≡ update_member fold.now.intents fold.now.bot (member_of update.member) view.old) }
    ensures err { OnErr result (view.new ≡ view.old) }
{
    let member = member_of(fold.alloc, update.into_member())?;
    if member.user.id != fold.bot {
        return set_listed(fold, &mut view.members, member);
    }
    let me = member.duplicate(fold.alloc)?;
    set_listed(fold, &mut view.members, member)?;
    view.me = me;
    Ok(())
}

/// Removes a member, and counts one less (Gateway Events, Guild Member Remove).
pub(crate) fn remove_member(view: &mut OpenView, remove: &GuildMemberRemove)
    ensures { view.new ≡ remove_member remove.now.user.id view.old }
{
    view.members.remove(remove.user.id.0);
    view.member_count = view.member_count.map(one_less);
}

/// The members of these member objects.
pub(crate) fn members_of(
    alloc: Global,
    objects: Vec<MemberObject>,
) -> Result<Vec<Member>, AllocError>
    ensures { IfOk result (λ members. members.items ≡ map member_of objects.items) }
{
    let mut members = Vec::with_capacity(alloc, objects.len())?;
    for object in objects {
        members.push(member_of(alloc, object)?)?;
    }
    Ok(members)
}

/// Adds or replaces each of these members (Gateway Events, Guild Members Chunk).
pub(crate) fn set_members(
    fold: &Fold,
    view: &mut OpenView,
    objects: Seq<MemberObject>,
) -> Result<(), AllocError>
    ensures ok { OnOk result (view.new
        ≡ set_members fold.now.intents (map member_of objects) view.old) }
    ensures err { OnErr result (view.new ≡ view.old) }
{
    if fold.intents.has(Intents::GUILD_MEMBERS) {
        let members = members_of(fold.alloc, objects.into_vec())?;
        view.members.put_all(members)
    } else {
        view.members = ById::new(fold.alloc);
        Ok(())
    }
}
