//! The users that a client was told of. A change makes a new list, so that out of memory leaves the
//! old one.

ghost use Rattle.std.specs.Prelude.{◌≡◌, [], Some, map, unwrap_or, IfOk};
ghost use Rattle.collections.specs.ById.{has_id, put_id, put_all, without_id};
ghost use Rattle.guild_model.specs.Record.{own_id};
ghost use Rattle.dispatch_types.specs.Fold.{user_id};

use collections::ById;
use dispatch_types::MemberObject;
use snowflake_id::Snowflake;
use std::alloc::{AllocError, Global};

fn user_id(member: &MemberObject) -> Snowflake
    ensures { result ≡ user_id member.now }
{
    member.user.id
}

fn users(alloc: Global, members: &[MemberObject]) -> Result<Vec<Snowflake>, AllocError>
    ensures { IfOk result (λ users. users.items ≡ map user_id members.now) }
{
    members.iter().map(user_id).collect(alloc)
}

/// The users of GUILD_CREATE.
pub(crate) fn created_users(
    alloc: Global,
    members: &[MemberObject],
) -> Result<Option<ById<Snowflake>>, AllocError>
    ensures { IfOk result (λ known. known ≡ Some (put_all own_id [] (map user_id members.now))) }
{
    let known = ById::of(alloc, users(alloc, members)?)?;
    Ok(Some(known))
}

fn is_known(known: &ById<Snowflake>, user: Snowflake) -> bool
    ensures { result ≡ has_id own_id user known.now }
{
    known.contains(user.0)
}

/// The users and this one; `None` if it is among them already.
pub(crate) fn with_user(
    alloc: Global,
    known: &ById<Snowflake>,
    user: Snowflake,
) -> Result<Option<ById<Snowflake>>, AllocError>
    ensures { IfOk result (λ after. unwrap_or after known.now ≡ put_id own_id user known.now) }
{
    // Brings the list's invariant into the proof.
    let _known = known.as_slice();
    if is_known(known, user) {
        return Ok(None);
    }
    let mut after = known.copy(alloc)?;
    after.put(user)?;
    Ok(Some(after))
}

/// The users and those of these members.
pub(crate) fn with_users(
    alloc: Global,
    known: &ById<Snowflake>,
    members: &[MemberObject],
) -> Result<Option<ById<Snowflake>>, AllocError>
    ensures { IfOk result (λ after. after
        ≡ Some (put_all own_id known.now (map user_id members.now))) }
{
    let mut after = known.copy(alloc)?;
    after.put_all(users(alloc, members)?)?;
    Ok(Some(after))
}

/// The users without one.
pub(crate) fn without_user(
    alloc: Global,
    known: &ById<Snowflake>,
    user: Snowflake,
) -> Result<Option<ById<Snowflake>>, AllocError>
    ensures { IfOk result (λ after. after ≡ Some (without_id own_id user known.now)) }
{
    let mut after = known.copy(alloc)?;
    after.remove(user.0);
    Ok(Some(after))
}
