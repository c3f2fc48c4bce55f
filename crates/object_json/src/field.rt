//! Writing a key with one plain value.

ghost use Rattle.std.specs.Prelude.{◌∷◌, [], OnOk, IfSome, option_map};
ghost use Rattle.json.specs.Token.{key as key_token, begin_object, end_object};
ghost use Rattle.serde_json.specs.Data.{null, string, boolean, array, no_items};
ghost use Rattle.object_json.specs.Added.{AddsTokens, member_tokens, member_tokens_if};
ghost use Rattle.object_json.specs.Fits.{IsId, IsMask, IsWhole, IsSmall, IsMoment};
ghost use Rattle.object_json.specs.Kinds.{digits, count, time, or_null, true_if};

use collections::Text;
use guild_model::Moment;
use json::Writer;
use moment_text::moment_text;
use perm_bits::Perms;
use snowflake_id::Snowflake;
use std::alloc::{AllocError, Global};

/// Begins an object.
pub fn open(out: &mut Writer) -> Result<(), AllocError>
    ensures { AddsTokens result out.old out.new (begin_object ∷ []) }
{
    out.begin_object()?;
    Ok(())
}

/// Ends an object.
pub fn close(out: &mut Writer) -> Result<(), AllocError>
    ensures { AddsTokens result out.old out.new (end_object ∷ []) }
{
    out.end_object()?;
    Ok(())
}

/// Writes the key of a value that follows.
pub fn key(out: &mut Writer, name: &str) -> Result<(), AllocError>
    ensures { AddsTokens result out.old out.new (key_token name.now ∷ []) }
{
    out.key(name)?;
    Ok(())
}

/// Writes an id under its key.
pub fn id_field(out: &mut Writer, name: &str, id: Snowflake) -> Result<(), AllocError>
    ensures adds { AddsTokens result out.old out.new (member_tokens name.now (digits id)) }
    ensures fits { OnOk result (IsId id) }
{
    out.key(name)?;
    out.quoted_u64(id.0)?;
    Ok(())
}

/// Writes an id under its key, or null.
pub fn maybe_id_field(out: &mut Writer, name: &str, id: Option<Snowflake>) -> Result<(), AllocError>
    ensures adds { AddsTokens result out.old out.new (member_tokens name.now (or_null digits id)) }
    ensures fits { OnOk result (IfSome id IsId) }
{
    match id {
        Some(id) => id_field(out, name, id),
        None => null_field(out, name),
    }
}

/// Writes null under its key.
pub fn null_field(out: &mut Writer, name: &str) -> Result<(), AllocError>
    ensures { AddsTokens result out.old out.new (member_tokens name.now null) }
{
    out.key(name)?;
    out.null()?;
    Ok(())
}

/// Writes a set of permissions under its key.
pub fn mask_field(out: &mut Writer, name: &str, mask: Perms) -> Result<(), AllocError>
    ensures adds { AddsTokens result out.old out.new (member_tokens name.now (digits mask)) }
    ensures fits { OnOk result (IsMask mask) }
{
    out.key(name)?;
    out.quoted_u64(mask.mask())?;
    Ok(())
}

/// Writes a text under its key.
pub fn text_field(out: &mut Writer, name: &str, text: &Text) -> Result<(), AllocError>
    ensures { AddsTokens result out.old out.new (member_tokens name.now (string text.now)) }
{
    out.key(name)?;
    out.string(text.as_str())?;
    Ok(())
}

/// Writes a text under its key, or null.
pub fn maybe_text_field(out: &mut Writer, name: &str, text: &Option<Text>) -> Result<(), AllocError>
    ensures { AddsTokens result out.old out.new (member_tokens name.now (or_null string text.now)) }
{
    match text {
        Some(text) => text_field(out, name, text),
        None => null_field(out, name),
    }
}

/// Writes a number under its key.
pub fn number_field(out: &mut Writer, name: &str, number: u64) -> Result<(), AllocError>
    ensures adds { AddsTokens result out.old out.new (member_tokens name.now (count number)) }
    ensures fits { OnOk result (IsWhole number) }
{
    out.key(name)?;
    out.u64(number)?;
    Ok(())
}

/// Writes a number of 32 bits under its key.
pub fn small_field(out: &mut Writer, name: &str, number: u32) -> Result<(), AllocError>
    ensures adds { AddsTokens result out.old out.new (member_tokens name.now (count number)) }
    ensures fits { OnOk result (IsSmall number) }
{
    number_field(out, name, u64::from(number))
}

/// Writes a flag under its key.
pub fn flag_field(out: &mut Writer, name: &str, flag: bool) -> Result<(), AllocError>
    ensures { AddsTokens result out.old out.new (member_tokens name.now (boolean flag)) }
{
    out.key(name)?;
    out.boolean(flag)?;
    Ok(())
}

/// Writes a moment under its key.
pub fn time_field(
    alloc: Global,
    out: &mut Writer,
    name: &str,
    moment: Moment,
) -> Result<(), AllocError>
    ensures adds { AddsTokens result out.old out.new (member_tokens name.now (time moment)) }
    ensures fits { OnOk result (IsMoment moment) }
{
    let text = moment_text(alloc, moment)?;
    out.key(name)?;
    out.string(text.as_str())?;
    Ok(())
}

/// Writes a moment under its key, or null.
pub fn maybe_time_field(
    alloc: Global,
    out: &mut Writer,
    name: &str,
    moment: Option<Moment>,
) -> Result<(), AllocError>
    ensures adds { AddsTokens result out.old out.new (member_tokens name.now (or_null time moment)) }
    ensures fits { OnOk result (IfSome moment IsMoment) }
{
    match moment {
        Some(moment) => time_field(alloc, out, name, moment),
        None => null_field(out, name),
    }
}

/// Writes a list without items under its key.
pub fn empty_field(out: &mut Writer, name: &str) -> Result<(), AllocError>
    ensures { AddsTokens result out.old out.new (member_tokens name.now (array no_items)) }
{
    out.key(name)?;
    out.begin_array()?;
    out.end_array()?;
    Ok(())
}

/// Writes an id under its key, or nothing.
pub fn id_field_if(out: &mut Writer, name: &str, id: Option<Snowflake>) -> Result<(), AllocError>
    ensures adds { AddsTokens result out.old out.new (member_tokens_if name.now (option_map digits id)) }
    ensures fits { OnOk result (IfSome id IsId) }
{
    match id {
        Some(id) => id_field(out, name, id),
        None => Ok(()),
    }
}

/// Writes a text under its key, or nothing.
pub fn text_field_if(out: &mut Writer, name: &str, text: &Option<Text>) -> Result<(), AllocError>
    ensures { AddsTokens result out.old out.new (member_tokens_if name.now (option_map string text.now)) }
{
    match text {
        Some(text) => text_field(out, name, text),
        None => Ok(()),
    }
}

/// Writes a true flag under its key, or nothing.
pub fn true_field_if(out: &mut Writer, name: &str, flag: bool) -> Result<(), AllocError>
    ensures { AddsTokens result out.old out.new (member_tokens_if name.now (true_if flag)) }
{
    if flag {
        flag_field(out, name, true)
    } else {
        Ok(())
    }
}
