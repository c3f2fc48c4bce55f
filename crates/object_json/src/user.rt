//! Users.

use crate::fault::ReadFault;
use crate::field::{close, flag_field, id_field, open, text_field};
use crate::readable::Readable;
use crate::reading::{flag_at, id_at, text_at};
use crate::written::Written;
use guild_model::User;
use json::Writer;
use json_view::Node;
use std::alloc::{AllocError, Global};

impl Written for User {
    ghost use Rattle.object_json.specs.User.{user_data};
    ghost use Rattle.object_json.specs.User.{UserFits};

    ghost json = { user_data };

    ghost Fits = { UserFits };

    fn write(&self, _alloc: Global, out: &mut Writer) -> Result<(), AllocError> {
        open(out)?;
        flag_field(out, "bot", self.bot)?;
        id_field(out, "id", self.id)?;
        text_field(out, "username", &self.name)?;
        close(out)?;
        Ok(())
    }
}

impl Readable for User {
    ghost use Rattle.object_json.specs.User.{user_from};

    ghost from = { user_from };

    fn read(alloc: Global, object: &Node<'_>) -> Result<User, ReadFault> {
        let bot = flag_at(object, "bot")?;
        let id = id_at(object, "id")?;
        let name = text_at(alloc, object, "username")?;
        Ok(User { id, name, bot })
    }
}
