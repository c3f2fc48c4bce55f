//! GUILD_ROLE_CREATE, GUILD_ROLE_UPDATE and GUILD_ROLE_DELETE.

ghost use Rattle.std.specs.Prelude.{◌≡◌, OnOk, OnErr};
ghost use Rattle.dispatch_types.specs.Fold.{set_role, drop_role};

use collections::Change;
use dispatch_types::OpenView;
use guild_model::Role;
use guild_model::changes::WithoutRole;
use snowflake_id::Snowflake;
use std::alloc::AllocError;

/// Adds or replaces a role (Gateway Events, Guild Role Create and Guild Role Update).
pub(crate) fn set_role(view: &mut OpenView, role: Role) -> Result<(), AllocError>
    ensures ok { OnOk result (view.new ≡ set_role role view.old) }
    ensures err { OnErr result (view.new ≡ view.old) }
{
    view.roles.put(role)
}

/// Removes a role, also from the members who hold it, and its overwrites (Gateway Events, Guild
/// Role Delete).
pub(crate) fn drop_role(view: &mut OpenView, role: Snowflake)
    ensures { view.new ≡ drop_role role view.old }
{
    view.roles.remove(role.0);
    WithoutRole(role).change(&mut view.me);
    view.members.change_all(WithoutRole(role));
    view.channels.change_all(WithoutRole(role));
}
