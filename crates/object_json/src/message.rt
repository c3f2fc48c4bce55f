//! Messages.

ghost use Rattle.std.specs.Prelude.{◌≡◌, OnOk, codes};
ghost use Rattle.object_json.specs.Added.{AddsTokens, Ends, member_tokens};
ghost use Rattle.object_json.specs.Kinds.{time};
ghost use Rattle.object_json.specs.Message.{moment_of, message_rest, MessageRestFits};

use crate::fault::ReadFault;
use crate::field::{close, id_field, number_field, open, text_field, time_field};
use crate::readable::{Readable, list_at, parts_at, value_at};
use crate::reading::{id_at, text_at};
use crate::written::{Written, list_field, parts_field, value_field};
use dispatch_types::MessageObject;
use guild_model::Moment;
use json::Writer;
use json_view::Node;
use snowflake_id::Snowflake;
use std::alloc::{AllocError, Global};

fn moment_of(id: Snowflake) -> Moment
    ensures { result ≡ moment_of id }
{
    Moment::of_millis(id.millis()).unwrap()
}

fn timestamp_field(alloc: Global, out: &mut Writer, id: Snowflake) -> Result<(), AllocError>
    ensures { AddsTokens result out.old out.new (member_tokens (codes "timestamp") (time (moment_of id))) }
{
    time_field(alloc, out, "timestamp", moment_of(id))?;
    Ok(())
}

fn end_message(alloc: Global, out: &mut Writer, message: &MessageObject) -> Result<(), AllocError>
    ensures adds { Ends result out.old out.new (message_rest message.now) }
    ensures fits { OnOk result (MessageRestFits message.now) }
{
    parts_field(out, "embeds", message.embeds)?;
    id_field(out, "guild_id", message.guild)?;
    id_field(out, "id", message.id)?;
    list_field(alloc, out, "mentions", &message.mentions)?;
    timestamp_field(alloc, out, message.id)?;
    number_field(out, "type", 0)?;
    close(out)?;
    Ok(())
}

impl Written for MessageObject {
    ghost use Rattle.object_json.specs.Message.{message_data};
    ghost use Rattle.object_json.specs.Message.{MessageFits};

    ghost json = { message_data };

    ghost Fits = { MessageFits };

    fn write(&self, alloc: Global, out: &mut Writer) -> Result<(), AllocError> {
        open(out)?;
        parts_field(out, "attachments", self.attachments)?;
        value_field(alloc, out, "author", &self.author)?;
        id_field(out, "channel_id", self.channel)?;
        parts_field(out, "components", self.components)?;
        text_field(out, "content", &self.content)?;
        end_message(alloc, out, self)?;
        Ok(())
    }
}

impl Readable for MessageObject {
    ghost use Rattle.object_json.specs.Message.{message_from};

    ghost from = { message_from };

    fn read(alloc: Global, object: &Node<'_>) -> Result<MessageObject, ReadFault> {
        let attachments = parts_at(object, "attachments")?;
        let author = value_at(alloc, object, "author")?;
        let channel = id_at(object, "channel_id")?;
        let components = parts_at(object, "components")?;
        let content = text_at(alloc, object, "content")?;
        let embeds = parts_at(object, "embeds")?;
        let guild = id_at(object, "guild_id")?;
        let id = id_at(object, "id")?;
        let mentions = list_at(alloc, object, "mentions")?;
        Ok(MessageObject {
            guild,
            channel,
            id,
            author,
            content,
            mentions,
            embeds,
            attachments,
            components,
        })
    }
}
