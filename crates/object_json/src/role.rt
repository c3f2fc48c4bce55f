//! Roles.

use crate::fault::ReadFault;
use crate::field::{close, id_field, mask_field, open, small_field, text_field};
use crate::readable::Readable;
use crate::reading::{id_at, mask_at, small_at, text_at};
use crate::written::Written;
use guild_model::Role;
use json::Writer;
use json_view::Node;
use std::alloc::{AllocError, Global};

impl Written for Role {
    ghost use Rattle.object_json.specs.Role.{role_data};
    ghost use Rattle.object_json.specs.Role.{RoleFits};

    ghost json = { role_data };

    ghost Fits = { RoleFits };

    fn write(&self, _alloc: Global, out: &mut Writer) -> Result<(), AllocError> {
        open(out)?;
        id_field(out, "id", self.id)?;
        text_field(out, "name", &self.name)?;
        mask_field(out, "permissions", self.permissions)?;
        small_field(out, "position", self.position)?;
        close(out)?;
        Ok(())
    }
}

impl Readable for Role {
    ghost use Rattle.object_json.specs.Role.{role_from};

    ghost from = { role_from };

    fn read(alloc: Global, object: &Node<'_>) -> Result<Role, ReadFault> {
        let id = id_at(object, "id")?;
        let name = text_at(alloc, object, "name")?;
        let permissions = mask_at(object, "permissions")?;
        let position = small_at(object, "position")?;
        Ok(Role {
            id,
            name,
            permissions,
            position,
        })
    }
}
