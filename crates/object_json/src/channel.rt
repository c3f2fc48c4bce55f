//! Channels and their overwrites.

ghost use Rattle.std.specs.Prelude.{codes};
ghost use Rattle.object_json.specs.Added.{AddsTokens, member_tokens};
ghost use Rattle.guild_model.specs.Numbers.{channel_kind_number, overwrite_kind_number};
ghost use Rattle.object_json.specs.Kinds.{count};

use crate::fault::ReadFault;
use crate::field::{
    close, id_field, mask_field, maybe_id_field, number_field, open, small_field, text_field,
};
use crate::readable::{Readable, list_at, nullable_at};
use crate::reading::{channel_kind_at, id_at, mask_at, overwrite_kind_at, small_at, text_at};
use crate::written::{Written, list_field};
use dispatch_types::{ChannelObject, OverwriteObject};
use guild_model::{ChannelKind, OverwriteKind};
use json::Writer;
use json_view::Node;
use std::alloc::{AllocError, Global};

fn overwrite_kind_field(out: &mut Writer, kind: OverwriteKind) -> Result<(), AllocError>
    ensures { AddsTokens result out.old out.new (member_tokens (codes "type") (count (overwrite_kind_number kind))) }
{
    number_field(out, "type", kind.number())?;
    Ok(())
}

fn channel_kind_field(out: &mut Writer, kind: ChannelKind) -> Result<(), AllocError>
    ensures { AddsTokens result out.old out.new (member_tokens (codes "type") (count (channel_kind_number kind))) }
{
    number_field(out, "type", kind.number())?;
    Ok(())
}

impl Written for OverwriteObject {
    ghost use Rattle.object_json.specs.Channel.{overwrite_data};
    ghost use Rattle.object_json.specs.Channel.{OverwriteFits};

    ghost json = { overwrite_data };

    ghost Fits = { OverwriteFits };

    fn write(&self, _alloc: Global, out: &mut Writer) -> Result<(), AllocError> {
        open(out)?;
        mask_field(out, "allow", self.allow)?;
        mask_field(out, "deny", self.deny)?;
        id_field(out, "id", self.id)?;
        overwrite_kind_field(out, self.kind)?;
        close(out)?;
        Ok(())
    }
}

impl Written for ChannelObject {
    ghost use Rattle.object_json.specs.Channel.{channel_data};
    ghost use Rattle.object_json.specs.Channel.{ChannelFits};

    ghost json = { channel_data };

    ghost Fits = { ChannelFits };

    fn write(&self, alloc: Global, out: &mut Writer) -> Result<(), AllocError> {
        open(out)?;
        id_field(out, "guild_id", self.guild)?;
        id_field(out, "id", self.id)?;
        text_field(out, "name", &self.name)?;
        maybe_id_field(out, "parent_id", self.parent)?;
        list_field(alloc, out, "permission_overwrites", &self.overwrites)?;
        small_field(out, "position", self.position)?;
        channel_kind_field(out, self.kind)?;
        close(out)?;
        Ok(())
    }
}

impl Readable for OverwriteObject {
    ghost use Rattle.object_json.specs.Channel.{overwrite_from};

    ghost from = { overwrite_from };

    fn read(_alloc: Global, object: &Node<'_>) -> Result<OverwriteObject, ReadFault> {
        let allow = mask_at(object, "allow")?;
        let deny = mask_at(object, "deny")?;
        let id = id_at(object, "id")?;
        let kind = overwrite_kind_at(object, "type")?;
        Ok(OverwriteObject {
            kind,
            id,
            allow,
            deny,
        })
    }
}

impl Readable for ChannelObject {
    ghost use Rattle.object_json.specs.Channel.{channel_from};

    ghost from = { channel_from };

    fn read(alloc: Global, object: &Node<'_>) -> Result<ChannelObject, ReadFault> {
        let guild = id_at(object, "guild_id")?;
        let id = id_at(object, "id")?;
        let name = text_at(alloc, object, "name")?;
        let parent = nullable_at(alloc, object, "parent_id")?;
        let overwrites = list_at(alloc, object, "permission_overwrites")?;
        let position = small_at(object, "position")?;
        let kind = channel_kind_at(object, "type")?;
        Ok(ChannelObject {
            guild,
            id,
            kind,
            name,
            parent,
            position,
            overwrites,
        })
    }
}
