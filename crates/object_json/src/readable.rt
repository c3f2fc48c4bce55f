//! Reading one JSON value, and the keys and lists that hold such.

ghost use Rattle.std.specs.Prelude.{◌≡◌};
ghost use Rattle.json_view.specs.Nodes.{view, items_view};
ghost use Rattle.object_json.specs.Reading.{UnlessMemory, value_at, nullable_at, optional_at, items_from, list_from, list_at, list_if_at, few_from, parts_at};

use crate::fault::ReadFault;
use crate::reading::{field_at, id_from, text_from, time_from};
use collections::{Seq, Text};
use guild_model::{Moment, PartCount};
use json_view::{JsonValue, Node, list_of};
use snowflake_id::Snowflake;
use std::alloc::Global;

/// What is read from one JSON value.
pub trait Readable {
    ghost use Rattle.std.specs.Prelude.{Result};
    ghost use Rattle.serde_json.specs.Data.{Data};
    ghost use Rattle.json_view.specs.Nodes.{view};
    ghost use Rattle.object_json.specs.Reading.{UnlessMemory};
    ghost use Rattle.object_json.specs.declared.fault.ReadFault.{ReadFault};

    ghost from: { Data → Result Self ReadFault };

    fn read(alloc: Global, value: &Node<'_>) -> Result<Self, ReadFault>
        ensures { UnlessMemory result (from (view value.now)) };
}

/// What a key's value is read as.
pub fn value_at<T: Readable + Drop>(
    alloc: Global,
    object: &Node<'_>,
    name: &str,
) -> Result<T, ReadFault>
    ensures { UnlessMemory result (value_at T.from name.now (view object.now)) }
{
    let value = field_at(object, name)?;
    T::read(alloc, value)
}

/// The same of a key whose value may be null.
pub fn nullable_at<T: Readable + Drop>(
    alloc: Global,
    object: &Node<'_>,
    name: &str,
) -> Result<Option<T>, ReadFault>
    ensures { UnlessMemory result (nullable_at T.from name.now (view object.now)) }
{
    match field_at(object, name)? {
        Node::Null => Ok(None),
        value => Ok(Some(T::read(alloc, value)?)),
    }
}

/// The same of a key that may be left out.
pub fn optional_at<T: Readable + Drop>(
    alloc: Global,
    object: &Node<'_>,
    name: &str,
) -> Result<Option<T>, ReadFault>
    ensures { UnlessMemory result (optional_at T.from name.now (view object.now)) }
{
    match object.member(name) {
        None => Ok(None),
        Some(value) => Ok(Some(T::read(alloc, value)?)),
    }
}

fn items_from<T: Readable + Drop>(alloc: Global, list: &[Node<'_>]) -> Result<Seq<T>, ReadFault>
    ensures { UnlessMemory result (items_from T.from (items_view list.now)) }
{
    let mut items = Seq::new(alloc);
    for value in list {
        let item = T::read(alloc, value)?;
        items.push(item)?;
    }
    Ok(items)
}

/// The list that a value is.
pub fn list_from<T: Readable + Drop>(alloc: Global, value: &Node<'_>) -> Result<Seq<T>, ReadFault>
    ensures { UnlessMemory result (list_from T.from (view value.now)) }
{
    let list = list_of(value).ok_or(ReadFault::BadField)?;
    items_from(alloc, list)
}

/// A list.
pub fn list_at<T: Readable + Drop>(
    alloc: Global,
    object: &Node<'_>,
    name: &str,
) -> Result<Seq<T>, ReadFault>
    ensures { UnlessMemory result (list_at T.from name.now (view object.now)) }
{
    let value = field_at(object, name)?;
    list_from(alloc, value)
}

/// A list that may be left out.
pub fn list_if_at<T: Readable + Drop>(
    alloc: Global,
    object: &Node<'_>,
    name: &str,
) -> Result<Seq<T>, ReadFault>
    ensures { UnlessMemory result (list_if_at T.from name.now (view object.now)) }
{
    match object.member(name) {
        None => Ok(Seq::new(alloc)),
        Some(value) => list_from(alloc, value),
    }
}

#[tactic(auto, using(crate::proofs::Lists::items_view_len))]
fn parts_of(list: &[Node<'_>]) -> Result<PartCount, ReadFault>
    ensures { result ≡ few_from (items_view list.now) }
{
    PartCount::new(list.len()).map_err(|_| ReadFault::BadField)
}

/// How many embeds, attachments or components there are.
pub fn parts_at(object: &Node<'_>, name: &str) -> Result<PartCount, ReadFault>
    ensures { result ≡ parts_at name.now (view object.now) }
{
    let list = list_of(field_at(object, name)?).ok_or(ReadFault::BadField)?;
    parts_of(list)
}

/// An id, as a text.
impl Readable for Snowflake {
    ghost use Rattle.object_json.specs.Reading.{id_from};

    ghost from = { id_from };

    fn read(_alloc: Global, value: &Node<'_>) -> Result<Snowflake, ReadFault> {
        id_from(value)
    }
}

impl Readable for Text {
    ghost use Rattle.object_json.specs.Reading.{text_from};

    ghost from = { text_from };

    fn read(alloc: Global, value: &Node<'_>) -> Result<Text, ReadFault> {
        text_from(alloc, value)
    }
}

/// A moment, as a text.
impl Readable for Moment {
    ghost use Rattle.object_json.specs.Reading.{time_from};

    ghost from = { time_from };

    fn read(alloc: Global, value: &Node<'_>) -> Result<Moment, ReadFault> {
        time_from(alloc, value)
    }
}
