//! Writing one JSON value, and the keys and lists that hold such.

ghost use Rattle.object_json.specs.Fits.{Each, IsPartCount};
ghost use Rattle.std.specs.Prelude.{OnOk, ◌∷◌, ◌≡◌, ◌++◌, [], option_map};
ghost use Rattle.serde_json.specs.Data.{object, no_members};
ghost use Rattle.object_json.specs.Added.{Adds, AddsTokens, member_tokens, member_tokens_if};
ghost use Rattle.object_json.specs.Kinds.{list, list_if, blanks};

use crate::field::{close, key, open};
use collections::Seq;
use guild_model::PartCount;
use json::Writer;
use snowflake_id::Snowflake;
use std::alloc::{AllocError, Global};

/// What is written as one JSON value.
pub trait Written {
    ghost use Rattle.serde_json.specs.Data.{Data};
    ghost use Rattle.std.specs.Prelude.{OnOk};

    ghost json: { Self → Data };

    /// What the types of the fields hold.
    ghost Fits: { Self → Type 0 };

    fn write(&self, alloc: Global, out: &mut Writer) -> Result<(), AllocError>
        ensures adds { Adds result out.old out.new (json self.now) }
        ensures fits { OnOk result (Fits self.now) };
}

/// Writes a list.
pub fn list<T: Written>(alloc: Global, out: &mut Writer, items: &[T]) -> Result<(), AllocError>
    ensures adds { Adds result out.old out.new (list T.json items.now) }
    ensures fits { OnOk result (Each T.Fits items.now) }
{
    out.begin_array()?;
    for item in items {
        item.write(alloc, out)?;
    }
    out.end_array()?;
    Ok(())
}

/// Writes a list under its key.
pub fn list_field<T: Written + Drop>(
    alloc: Global,
    out: &mut Writer,
    name: &str,
    items: &Seq<T>,
) -> Result<(), AllocError>
    ensures adds { AddsTokens result out.old out.new (member_tokens name.now (list T.json items.now)) }
    ensures fits { OnOk result (Each T.Fits items.now) }
{
    key(out, name)?;
    list(alloc, out, items.as_slice())?;
    Ok(())
}

/// Writes a list under its key, or nothing where it has no item.
pub fn list_field_if<T: Written + Drop>(
    alloc: Global,
    out: &mut Writer,
    name: &str,
    items: &Seq<T>,
) -> Result<(), AllocError>
    ensures adds { AddsTokens result out.old out.new (member_tokens_if name.now (list_if T.json items.now)) }
    ensures fits { OnOk result (Each T.Fits items.now) }
{
    if items.is_empty() {
        return Ok(());
    }
    list_field(alloc, out, name, items)?;
    Ok(())
}

/// Writes a value under its key.
pub fn value_field<T: Written>(
    alloc: Global,
    out: &mut Writer,
    name: &str,
    value: &T,
) -> Result<(), AllocError>
    ensures adds { AddsTokens result out.old out.new (member_tokens name.now (T.json value.now)) }
    ensures fits { OnOk result (T.Fits value.now) }
{
    key(out, name)?;
    value.write(alloc, out)?;
    Ok(())
}

fn blank(out: &mut Writer) -> Result<(), AllocError>
    ensures { Adds result out.old out.new (object no_members) }
{
    open(out)?;
    close(out)?;
    Ok(())
}

fn blanks(out: &mut Writer, count: u8) -> Result<(), AllocError>
    ensures { Adds result out.old out.new (blanks count) }
{
    out.begin_array()?;
    for written in 0..count {
        let _before = written;
        blank(out)?;
    }
    out.end_array()?;
    Ok(())
}

fn blanks_field(out: &mut Writer, name: &str, count: u8) -> Result<(), AllocError>
    ensures { AddsTokens result out.old out.new (member_tokens name.now (blanks count)) }
{
    key(out, name)?;
    blanks(out, count)?;
    Ok(())
}

/// Writes a list of as many `{}` as there are embeds, attachments or components under its key.
pub fn parts_field(out: &mut Writer, name: &str, count: PartCount) -> Result<(), AllocError>
    ensures adds { AddsTokens result out.old out.new (member_tokens name.now (blanks count)) }
    ensures fits { OnOk result (IsPartCount count) }
{
    blanks_field(out, name, count.get())?;
    Ok(())
}

/// An id, as a text.
impl Written for Snowflake {
    ghost use Rattle.object_json.specs.Kinds.{digits};
    ghost use Rattle.object_json.specs.Fits.{IsId};

    ghost json = { digits };

    ghost Fits = { IsId };

    fn write(&self, _alloc: Global, out: &mut Writer) -> Result<(), AllocError> {
        out.quoted_u64(self.0)?;
        Ok(())
    }
}
