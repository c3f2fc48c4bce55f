//! Reads the fields of an object, each by its kind.

ghost use Rattle.std.specs.Prelude.{◌≡◌, nat_lt};
ghost use Rattle.std.specs.Result.{result_map_both};
ghost use Rattle.guild_model.specs.declared.moment.TheConstants.{END_OF_TIME};
ghost use Rattle.json_view.specs.Nodes.{view, items_view};
ghost use Rattle.serde_json.specs.Events.{items_len};
ghost use Rattle.edit_fields.specs.Fault.{UnlessMemory};
ghost use Rattle.edit_fields.specs.Fields.{text_at, id_at, flag_at, number_below, within, mask_at, moment_at, position_at, kind_at, thread_kind_at, overwrite_kind_at, status_at, parts_at, ids_from, few_ids_from, ids_at, nullable_text_at, nullable_id_at, nullable_moment_at};

use crate::LineFault;
use collections::{Seq, Text};
use guild_model::{ChannelKind, Moment, OverwriteKind, PartCount, Status, ThreadKind, limits};
use json_view::{JsonValue, Node, field_of, flag_of, id_from, id_of, list_of, number_of, text_of};
use perm_bits::Perms;
use snowflake_id::Snowflake;
use std::alloc::Global;

/// Reads a text.
pub fn text_at<'a>(object: &'a Node<'_>, name: &str) -> Result<&'a str, LineFault>
    ensures { result_map_both (λ s. s.now) (λ e. e) result ≡ text_at name.now (view object.now) }
{
    Ok(text_of(object, name)?)
}

/// Reads an id, which is a number or a text.
pub fn id_at(object: &Node<'_>, name: &str) -> Result<Snowflake, LineFault>
    ensures { result ≡ id_at name.now (view object.now) }
{
    Ok(Snowflake(id_of(object, name)?))
}

/// Reads `true` or `false`.
pub fn flag_at(object: &Node<'_>, name: &str) -> Result<bool, LineFault>
    ensures { result ≡ flag_at name.now (view object.now) }
{
    Ok(flag_of(object, name)?)
}

/// Reads a whole number below a limit.
pub fn number_below(object: &Node<'_>, name: &str, limit: u64) -> Result<u64, LineFault>
    ensures { result ≡ number_below limit name.now (view object.now) }
{
    let number = number_of(object, name)?;
    if number < limit {
        Ok(number)
    } else {
        Err(LineFault::WrongType)
    }
}

/// Reads a set of permissions.
pub fn mask_at(object: &Node<'_>, name: &str) -> Result<Perms, LineFault>
    ensures { result ≡ mask_at name.now (view object.now) }
{
    match Perms::of_mask(id_of(object, name)?) {
        Err(_) => Err(LineFault::WrongType),
        Ok(perms) => Ok(perms),
    }
}

fn moment_within(millis: u64) -> Result<Moment, LineFault>
    ensures { result ≡ within (nat_lt millis END_OF_TIME) millis }
{
    match Moment::of_millis(millis) {
        Err(_) => Err(LineFault::WrongType),
        Ok(moment) => Ok(moment),
    }
}

/// Reads a moment, in milliseconds since 1970.
pub fn moment_at(object: &Node<'_>, name: &str) -> Result<Moment, LineFault>
    ensures { result ≡ moment_at name.now (view object.now) }
{
    moment_within(number_of(object, name)?)
}

/// Reads the position of a role or a channel.
pub fn position_at(object: &Node<'_>, name: &str) -> Result<u32, LineFault>
    ensures { result ≡ position_at name.now (view object.now) }
{
    let number = number_of(object, name)?;
    if number < 1 << 31 {
        Ok(number as u32)
    } else {
        Err(LineFault::WrongType)
    }
}

/// Reads the type of a channel, a number (Channels Resource, Channel Types).
pub fn kind_at(object: &Node<'_>, name: &str) -> Result<ChannelKind, LineFault>
    ensures { result ≡ kind_at name.now (view object.now) }
{
    ChannelKind::of_number(number_of(object, name)?).ok_or(LineFault::WrongType)
}

/// Reads the type of a thread, a number (Channels Resource, Channel Types).
pub fn thread_kind_at(object: &Node<'_>, name: &str) -> Result<ThreadKind, LineFault>
    ensures { result ≡ thread_kind_at name.now (view object.now) }
{
    ThreadKind::of_number(number_of(object, name)?).ok_or(LineFault::WrongType)
}

/// Reads the type of an overwrite, a number (Channels Resource, Overwrite Object).
pub fn overwrite_kind_at(object: &Node<'_>, name: &str) -> Result<OverwriteKind, LineFault>
    ensures { result ≡ overwrite_kind_at name.now (view object.now) }
{
    OverwriteKind::of_number(number_of(object, name)?).ok_or(LineFault::WrongType)
}

/// Reads a status, by its name.
pub fn status_at(object: &Node<'_>, name: &str) -> Result<Status, LineFault>
    ensures { result ≡ status_at name.now (view object.now) }
{
    Status::of_name(text_at(object, name)?).ok_or(LineFault::WrongType)
}

/// Reads how many embeds, attachments or components a message has: at most [`limits::PARTS`].
pub fn parts_at(object: &Node<'_>, name: &str) -> Result<PartCount, LineFault>
    ensures { result ≡ parts_at name.now (view object.now) }
{
    match PartCount::new(number_of(object, name)? as usize) {
        Err(_) => Err(LineFault::WrongType),
        Ok(count) => Ok(count),
    }
}

fn ids_from(alloc: Global, list: &[Node<'_>]) -> Result<Seq<Snowflake>, LineFault>
    ensures { UnlessMemory result (ids_from (items_view list.now)) }
{
    let mut ids = Seq::new(alloc);
    for value in list {
        let Ok(id) = id_from(value) else {
            return Err(LineFault::WrongType);
        };
        ids.push(Snowflake(id))?;
    }
    Ok(ids)
}

#[tactic(auto, using(crate::proofs::Lists::items_view_len))]
fn too_many(list: &[Node<'_>]) -> bool
    ensures { result ≡ nat_lt 100 (items_len (items_view list.now)) }
{
    list.len() > limits::MENTIONS as usize
}

fn few_ids_from(alloc: Global, list: &[Node<'_>]) -> Result<Seq<Snowflake>, LineFault>
    ensures { UnlessMemory result (few_ids_from (items_view list.now)) }
{
    if too_many(list) {
        return Err(LineFault::WrongType);
    }
    ids_from(alloc, list)
}

/// Reads a list of at most [`limits::MENTIONS`] ids.
pub fn ids_at(alloc: Global, object: &Node<'_>, name: &str) -> Result<Seq<Snowflake>, LineFault>
    ensures { UnlessMemory result (ids_at name.now (view object.now)) }
{
    match list_of(field_of(object, name)?) {
        None => Err(LineFault::WrongType),
        Some(list) => few_ids_from(alloc, list),
    }
}

/// Reads a text or null, in a field that must exist.
pub fn nullable_text_at(
    alloc: Global,
    object: &Node<'_>,
    name: &str,
) -> Result<Option<Text>, LineFault>
    ensures { UnlessMemory result (nullable_text_at name.now (view object.now)) }
{
    match field_of(object, name)? {
        Node::Null => Ok(None),
        value => {
            let text = value.text().ok_or(LineFault::WrongType)?;
            Ok(Some(Text::new(alloc, text)?))
        }
    }
}

/// Reads an id or null, in a field that must exist.
pub fn nullable_id_at(object: &Node<'_>, name: &str) -> Result<Option<Snowflake>, LineFault>
    ensures { result ≡ nullable_id_at name.now (view object.now) }
{
    match field_of(object, name)? {
        Node::Null => Ok(None),
        value => Ok(Some(Snowflake(id_from(value)?))),
    }
}

/// Reads a moment or null, in a field that must exist.
pub fn nullable_moment_at(object: &Node<'_>, name: &str) -> Result<Option<Moment>, LineFault>
    ensures { result ≡ nullable_moment_at name.now (view object.now) }
{
    match field_of(object, name)? {
        Node::Null => Ok(None),
        value => {
            let millis = value.whole().ok_or(LineFault::WrongType)?;
            Ok(Some(moment_within(millis)?))
        }
    }
}
