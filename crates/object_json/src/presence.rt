//! Presences.

ghost use Rattle.std.specs.Prelude.{OnOk, codes};
ghost use Rattle.serde_json.specs.Data.{string};
ghost use Rattle.object_json.specs.Added.{AddsTokens, member_tokens};
ghost use Rattle.guild_model.specs.Statuses.{status_name, status_of_shown};
ghost use Rattle.object_json.specs.Fits.{IsId};
ghost use Rattle.object_json.specs.Presence.{partial_user_data, partial_user_at};
ghost use Rattle.std.specs.Prelude.{◌≡◌};
ghost use Rattle.json_view.specs.Nodes.{view};

use crate::fault::ReadFault;
use crate::field::{close, empty_field, id_field, key, open};
use crate::readable::Readable;
use crate::reading::{field_at, id_at, status_at};
use crate::written::Written;
use dispatch_types::PresenceObject;
use guild_model::{ShownStatus, Status};
use json::Writer;
use json_view::Node;
use snowflake_id::Snowflake;
use std::alloc::{AllocError, Global};

fn status_field(out: &mut Writer, shown: Option<ShownStatus>) -> Result<(), AllocError>
    ensures { AddsTokens result out.old out.new (member_tokens (codes "status") (string (status_name (status_of_shown shown)))) }
{
    key(out, "status")?;
    out.string(Status::of_shown(shown).name())?;
    Ok(())
}

fn partial_user_field(out: &mut Writer, user: Snowflake) -> Result<(), AllocError>
    ensures adds { AddsTokens result out.old out.new (member_tokens (codes "user") (partial_user_data user)) }
    ensures fits { OnOk result (IsId user) }
{
    key(out, "user")?;
    open(out)?;
    id_field(out, "id", user)?;
    close(out)?;
    Ok(())
}

impl Written for PresenceObject {
    ghost use Rattle.object_json.specs.Presence.{presence_data};
    ghost use Rattle.object_json.specs.Presence.{PresenceFits};

    ghost json = { presence_data };

    ghost Fits = { PresenceFits };

    fn write(&self, _alloc: Global, out: &mut Writer) -> Result<(), AllocError> {
        open(out)?;
        empty_field(out, "activities")?;
        id_field(out, "guild_id", self.guild)?;
        status_field(out, self.status)?;
        partial_user_field(out, self.user)?;
        close(out)?;
        Ok(())
    }
}

fn partial_user_at(object: &Node<'_>) -> Result<Snowflake, ReadFault>
    ensures { result ≡ partial_user_at (view object.now) }
{
    let user = field_at(object, "user")?;
    id_at(user, "id")
}

impl Readable for PresenceObject {
    ghost use Rattle.object_json.specs.Presence.{presence_from};

    ghost from = { presence_from };

    fn read(_alloc: Global, object: &Node<'_>) -> Result<PresenceObject, ReadFault> {
        let guild = id_at(object, "guild_id")?;
        let status = status_at(object, "status")?;
        let user = partial_user_at(object)?;
        Ok(PresenceObject {
            guild,
            user,
            status,
        })
    }
}
