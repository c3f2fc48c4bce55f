//! Reads the fields of each step.

ghost use Rattle.std.specs.Prelude.{◌≡◌, ◌^◌, codes};
ghost use Rattle.json_view.specs.Nodes.{view};
ghost use Rattle.edit_fields.specs.Fault.{UnlessMemory};
ghost use Rattle.edit_fields.specs.Fields.{number_below};
ghost use Rattle.edit_text.specs.Lines.{bot_from, has_id, has_room, guild_from, worker_at, connection_at, edit_line_from, look_from, open_from, frame_from, lost_from, closed_from, tick_from, fields_from};

use crate::intents::intents_at;
use crate::ring_size::ring_size_from;
use crate::step_name::StepName;
use crate::{Line, LineFault};
use collections::Text;
use edit_fields::fields::{id_at, number_below, text_at};
use edit_fields::{EditName, edits};
use json_view::Node;
use snowflake_id::Snowflake;
use std::alloc::Global;

/// The most bytes that a token may have.
pub const MAX_TOKEN_BYTES: usize = 100;

/// The most guilds that a file may name.
pub const MAX_GUILDS: usize = 32;

fn bot_from(alloc: Global, object: &Node<'_>) -> Result<Line, LineFault>
    ensures { UnlessMemory result (bot_from (view object.now)) }
{
    let token = text_at(object, "token")?;
    if token.len() > MAX_TOKEN_BYTES {
        return Err(LineFault::TooLong);
    }
    let user = id_at(object, "user")?;
    let name = text_at(object, "name")?;
    let privileged = intents_at(object, "privileged")?;
    let size = ring_size_from(object)?;
    let token = Text::new(alloc, token)?;
    let name = Text::new(alloc, name)?;
    Ok(Line::Bot {
        token,
        user,
        name,
        privileged,
        v: size.v,
        ring_items: size.ring_items,
        ring_bytes: size.ring_bytes,
    })
}

/// Whether a list has this id.
pub fn has_id(guilds: &[Snowflake], id: Snowflake) -> bool
    ensures { result ≡ has_id id guilds.now }
{
    guilds.iter().any(|guild| guild.0 == id.0)
}

fn has_room(guilds: &[Snowflake], id: Snowflake) -> bool
    ensures { result ≡ has_room guilds.now id }
{
    has_id(guilds, id) || guilds.len() < MAX_GUILDS
}

fn guild_from(guilds: &[Snowflake], object: &Node<'_>) -> Result<Line, LineFault>
    ensures { result ≡ guild_from guilds.now (view object.now) }
{
    let id = id_at(object, "id")?;
    if !has_room(guilds, id) {
        return Err(LineFault::TooLong);
    }
    Ok(Line::Guild { id })
}

fn worker_at(object: &Node<'_>) -> Result<u8, LineFault>
    ensures { result ≡ worker_at (view object.now) }
{
    Ok(number_below(object, "worker", 4)? as u8)
}

fn connection_at(object: &Node<'_>) -> Result<u32, LineFault>
    ensures { result ≡ connection_at (view object.now) }
{
    Ok(number_below(object, "conn", 1 << 32)? as u32)
}

fn code_at(object: &Node<'_>) -> Result<u16, LineFault>
    ensures { result ≡ number_below (2 ^ 16) (codes "code") (view object.now) }
{
    Ok(number_below(object, "code", 1 << 16)? as u16)
}

fn edit_line_from(alloc: Global, object: &Node<'_>) -> Result<Line, LineFault>
    ensures { UnlessMemory result (edit_line_from (view object.now)) }
{
    let guild = id_at(object, "guild")?;
    let name = text_at(object, "do")?;
    let Some(name) = EditName::of(name) else {
        return Err(LineFault::NoSuchStep);
    };
    let edit = edits::read(alloc, name, object)?;
    Ok(Line::Edit { guild, edit })
}

fn look_from(object: &Node<'_>) -> Result<Line, LineFault>
    ensures { result ≡ look_from (view object.now) }
{
    let worker = worker_at(object)?;
    let guild = id_at(object, "guild")?;
    Ok(Line::Look { worker, guild })
}

fn open_from(object: &Node<'_>) -> Result<Line, LineFault>
    ensures { result ≡ open_from (view object.now) }
{
    let worker = worker_at(object)?;
    let conn = connection_at(object)?;
    Ok(Line::Open { worker, conn })
}

fn frame_from(alloc: Global, object: &Node<'_>) -> Result<Line, LineFault>
    ensures { UnlessMemory result (frame_from (view object.now)) }
{
    let conn = connection_at(object)?;
    let text = text_at(object, "text")?;
    let text = Text::new(alloc, text)?;
    Ok(Line::Frame { conn, text })
}

fn lost_from(object: &Node<'_>) -> Result<Line, LineFault>
    ensures { result ≡ lost_from (view object.now) }
{
    let conn = connection_at(object)?;
    Ok(Line::Lost { conn })
}

fn closed_from(object: &Node<'_>) -> Result<Line, LineFault>
    ensures { result ≡ closed_from (view object.now) }
{
    let conn = connection_at(object)?;
    let code = code_at(object)?;
    Ok(Line::Closed { conn, code })
}

fn tick_from(object: &Node<'_>) -> Result<Line, LineFault>
    ensures { result ≡ tick_from (view object.now) }
{
    let worker = worker_at(object)?;
    let now = number_below(object, "now", 1 << 53)?;
    Ok(Line::Tick { worker, now })
}

/// Reads the line of a step from the fields of an object, after the lines of these guilds.
pub fn fields_from(
    alloc: Global,
    guilds: &[Snowflake],
    step: StepName,
    object: &Node<'_>,
) -> Result<Line, LineFault>
    ensures { UnlessMemory result (fields_from guilds.now step (view object.now)) }
{
    match step {
        StepName::Bot => bot_from(alloc, object),
        StepName::Guild => guild_from(guilds, object),
        StepName::Edit => edit_line_from(alloc, object),
        StepName::Look => look_from(object),
        StepName::Open => open_from(object),
        StepName::Frame => frame_from(alloc, object),
        StepName::Lost => lost_from(object),
        StepName::Closed => closed_from(object),
        StepName::Tick => tick_from(object),
    }
}
