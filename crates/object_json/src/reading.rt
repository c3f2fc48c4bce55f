//! The fields of an object, as they are read.

ghost use Rattle.std.specs.Prelude.{◌≡◌};
ghost use Rattle.std.specs.Result.{result_map_both};
ghost use Rattle.json_view.specs.Nodes.{view};
ghost use Rattle.object_json.specs.Reading.{UnlessMemory, field_at, text_at, flag_at, is_there, number_at, small_at, id_from, id_at, mask_at, text_from, time_from, channel_kind_at, overwrite_kind_at, thread_kind_at, status_at};

use crate::fault::ReadFault;
use collections::Text;
use guild_model::{ChannelKind, Moment, OverwriteKind, ShownStatus, Status, ThreadKind};
use json_view::{JsonValue, Node, field_of, flag_of, id_of, number_of, text_of};
use moment_text::moment_of;
use perm_bits::Perms;
use snowflake_id::Snowflake;
use std::alloc::Global;

/// The value of a key.
pub fn field_at<'a, 't>(object: &'a Node<'t>, name: &str) -> Result<&'a Node<'t>, ReadFault>
    ensures { result_map_both (λ v. view v.now) (λ e. e) result ≡ field_at name.now (view object.now) }
{
    Ok(field_of(object, name)?)
}

/// A text.
pub fn text_at(alloc: Global, object: &Node<'_>, name: &str) -> Result<Text, ReadFault>
    ensures { UnlessMemory result (text_at name.now (view object.now)) }
{
    let text = text_of(object, name)?;
    Ok(Text::new(alloc, text)?)
}

/// A flag.
pub fn flag_at(object: &Node<'_>, name: &str) -> Result<bool, ReadFault>
    ensures { result ≡ flag_at name.now (view object.now) }
{
    Ok(flag_of(object, name)?)
}

/// A flag that is true or left out.
pub fn is_there(object: &Node<'_>, name: &str) -> bool
    ensures { result ≡ is_there name.now (view object.now) }
{
    object.member(name).is_some()
}

/// A whole number.
pub fn number_at(object: &Node<'_>, name: &str) -> Result<u64, ReadFault>
    ensures { result ≡ number_at name.now (view object.now) }
{
    Ok(number_of(object, name)?)
}

/// A whole number of 32 bits.
pub fn small_at(object: &Node<'_>, name: &str) -> Result<u32, ReadFault>
    ensures { result ≡ small_at name.now (view object.now) }
{
    let number = number_at(object, name)?;
    if number < 1 << 32 {
        Ok(number as u32)
    } else {
        Err(ReadFault::BadField)
    }
}

/// The id that a value is.
pub fn id_from(value: &Node<'_>) -> Result<Snowflake, ReadFault>
    ensures { result ≡ id_from (view value.now) }
{
    Ok(Snowflake(json_view::id_from(value)?))
}

/// An id.
pub fn id_at(object: &Node<'_>, name: &str) -> Result<Snowflake, ReadFault>
    ensures { result ≡ id_at name.now (view object.now) }
{
    Ok(Snowflake(id_of(object, name)?))
}

/// A set of permissions.
pub fn mask_at(object: &Node<'_>, name: &str) -> Result<Perms, ReadFault>
    ensures { result ≡ mask_at name.now (view object.now) }
{
    Perms::of_mask(id_of(object, name)?).map_err(|_| ReadFault::BadField)
}

/// The text that a value is.
pub fn text_from(alloc: Global, value: &Node<'_>) -> Result<Text, ReadFault>
    ensures { UnlessMemory result (text_from (view value.now)) }
{
    let Some(text) = value.text() else {
        return Err(ReadFault::BadField);
    };
    Ok(Text::new(alloc, text)?)
}

/// The moment that a value is, as a text.
pub fn time_from(alloc: Global, value: &Node<'_>) -> Result<Moment, ReadFault>
    ensures { UnlessMemory result (time_from (view value.now)) }
{
    let Some(text) = value.text() else {
        return Err(ReadFault::BadField);
    };
    moment_of(alloc, text)?.ok_or(ReadFault::BadField)
}

/// The type of a channel.
pub fn channel_kind_at(object: &Node<'_>, name: &str) -> Result<ChannelKind, ReadFault>
    ensures { result ≡ channel_kind_at name.now (view object.now) }
{
    ChannelKind::of_number(number_at(object, name)?).ok_or(ReadFault::BadField)
}

/// Whom an overwrite is of.
pub fn overwrite_kind_at(object: &Node<'_>, name: &str) -> Result<OverwriteKind, ReadFault>
    ensures { result ≡ overwrite_kind_at name.now (view object.now) }
{
    OverwriteKind::of_number(number_at(object, name)?).ok_or(ReadFault::BadField)
}

/// The type of a thread.
pub fn thread_kind_at(object: &Node<'_>, name: &str) -> Result<ThreadKind, ReadFault>
    ensures { result ≡ thread_kind_at name.now (view object.now) }
{
    ThreadKind::of_number(number_at(object, name)?).ok_or(ReadFault::BadField)
}

/// How a user of the status in a field is shown to others.
pub fn status_at(object: &Node<'_>, name: &str) -> Result<Option<ShownStatus>, ReadFault>
    ensures { result ≡ status_at name.now (view object.now) }
{
    let status = Status::of_name(text_of(object, name)?).ok_or(ReadFault::BadField)?;
    Ok(status.shown())
}
