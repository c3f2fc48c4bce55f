//! Writes the line of a step.

ghost use Rattle.std.specs.Prelude.{◌≡◌, ◌<◌, ◌≤◌, ◌^◌, length, true, Ok, Some, IfOk, OnOk, string_bytes};
ghost use Rattle.serde_json.specs.View.{view};
ghost use Rattle.serde_json.specs.Written.{compact_text};
ghost use Rattle.edit_text.specs.declared.reader_state.ReaderState.{ReaderState};
ghost use Rattle.edit_fields.specs.Fits.{IdFits, EditFits};
ghost use Rattle.edit_text.specs.Fits.{ConnectionFits, LineFits};
ghost use Rattle.edit_fields.specs.Members.{HasPut};
ghost use Rattle.edit_text.specs.Lines.{line_of};
ghost use Rattle.edit_text.specs.Written.{step_name, line_fields, line_data, allows};

use crate::Line;
use crate::intents::put_intents;
use crate::ring_size::{RingSize, put_ring_size};
use crate::step_name::StepName;
use collections::Text;
use edit_apply::Edit;
use edit_fields::edits;
use edit_fields::members::{put_id, put_number, put_str, put_text};
use serde_json::{Map, Value};
use snowflake_id::Snowflake;
use std::alloc::{AllocError, Global};

fn put_edit(
    alloc: Global,
    members: &mut Map<String, Value>,
    guild: Snowflake,
    edit: &Edit,
) -> Result<(), AllocError>
    ensures put { OnOk result
        (HasPut members.old.entries members.new.entries (line_fields (Line.Edit guild edit.now))) }
    ensures fits { OnOk result (IdFits guild × EditFits edit.now) }
{
    put_id(alloc, members, "guild", guild)?;
    put_str(alloc, members, "do", edits::name_of(edit).text())?;
    edits::put(alloc, members, edit)?;
    Ok(())
}

fn put_look(
    alloc: Global,
    members: &mut Map<String, Value>,
    worker: u8,
    guild: Snowflake,
) -> Result<(), AllocError>
    ensures put { OnOk result
        (HasPut members.old.entries members.new.entries (line_fields (Line.Look worker guild))) }
    ensures fits { OnOk result (IdFits guild) }
{
    put_number(alloc, members, "worker", u64::from(worker))?;
    put_id(alloc, members, "guild", guild)?;
    Ok(())
}

fn put_connection(
    alloc: Global,
    members: &mut Map<String, Value>,
    conn: u32,
) -> Result<(), AllocError>
    ensures put { OnOk result
        (HasPut members.old.entries members.new.entries (line_fields (Line.Lost conn))) }
    ensures fits { OnOk result (ConnectionFits conn) }
{
    put_number(alloc, members, "conn", u64::from(conn))?;
    Ok(())
}

fn put_open(
    alloc: Global,
    members: &mut Map<String, Value>,
    worker: u8,
    conn: u32,
) -> Result<(), AllocError>
    ensures put { OnOk result
        (HasPut members.old.entries members.new.entries (line_fields (Line.Open worker conn))) }
    ensures fits { OnOk result (ConnectionFits conn) }
{
    put_number(alloc, members, "worker", u64::from(worker))?;
    put_connection(alloc, members, conn)?;
    Ok(())
}

fn put_frame(
    alloc: Global,
    members: &mut Map<String, Value>,
    conn: u32,
    text: &Text,
) -> Result<(), AllocError>
    ensures put { OnOk result
        (HasPut members.old.entries members.new.entries (line_fields (Line.Frame conn text.now))) }
    ensures fits { OnOk result (ConnectionFits conn) }
{
    put_connection(alloc, members, conn)?;
    put_text(alloc, members, "text", text)?;
    Ok(())
}

fn put_closed(
    alloc: Global,
    members: &mut Map<String, Value>,
    conn: u32,
    code: u16,
) -> Result<(), AllocError>
    ensures put { OnOk result
        (HasPut members.old.entries members.new.entries (line_fields (Line.Closed conn code))) }
    ensures fits { OnOk result (ConnectionFits conn × (code < 2 ^ 16)) }
{
    put_connection(alloc, members, conn)?;
    put_number(alloc, members, "code", u64::from(code))?;
    Ok(())
}

fn put_tick(
    alloc: Global,
    members: &mut Map<String, Value>,
    worker: u8,
    now: u64,
) -> Result<(), AllocError>
    ensures put { OnOk result
        (HasPut members.old.entries members.new.entries (line_fields (Line.Tick worker now))) }
{
    put_number(alloc, members, "worker", u64::from(worker))?;
    put_number(alloc, members, "now", now)?;
    Ok(())
}

impl Line {
    fn step(&self) -> StepName
        ensures { result ≡ step_name self.now }
    {
        match self {
            Line::Bot { .. } => StepName::Bot,
            Line::Guild { .. } => StepName::Guild,
            Line::Edit { .. } => StepName::Edit,
            Line::Look { .. } => StepName::Look,
            Line::Open { .. } => StepName::Open,
            Line::Frame { .. } => StepName::Frame,
            Line::Lost { .. } => StepName::Lost,
            Line::Closed { .. } => StepName::Closed,
            Line::Tick { .. } => StepName::Tick,
        }
    }

    fn put(&self, alloc: Global, members: &mut Map<String, Value>) -> Result<(), AllocError>
        ensures put { OnOk result
            (HasPut members.old.entries members.new.entries (line_fields self.now)) }
        ensures fits { OnOk result (LineFits self.now) }
    {
        match self {
            Line::Bot {
                token,
                user,
                name,
                privileged,
                v,
                ring_items,
                ring_bytes,
            } => {
                put_text(alloc, members, "token", token)?;
                put_id(alloc, members, "user", *user)?;
                put_text(alloc, members, "name", name)?;
                put_intents(alloc, members, "privileged", *privileged)?;
                let size = RingSize {
                    v: *v,
                    ring_items: *ring_items,
                    ring_bytes: *ring_bytes,
                };
                put_ring_size(alloc, members, size)
            }
            Line::Guild { id } => put_id(alloc, members, "id", *id),
            Line::Edit { guild, edit } => put_edit(alloc, members, *guild, edit),
            Line::Look { worker, guild } => put_look(alloc, members, *worker, *guild),
            Line::Open { worker, conn } => put_open(alloc, members, *worker, *conn),
            Line::Frame { conn, text } => put_frame(alloc, members, *conn, text),
            Line::Lost { conn } => put_connection(alloc, members, *conn),
            Line::Closed { conn, code } => put_closed(alloc, members, *conn, *code),
            Line::Tick { worker, now } => put_tick(alloc, members, *worker, *now),
        }
    }

    fn value(&self, alloc: Global) -> Result<Value, AllocError>
        ensures value { IfOk result (λ v. view v ≡ line_data self.now) }
        ensures fits { OnOk result (LineFits self.now) }
    {
        let mut members = Map::new(alloc);
        put_str(alloc, &mut members, "step", self.step().text())?;
        self.put(alloc, &mut members)?;
        Ok(Value::Object(members))
    }

    /// The text of the line, without spaces and with its keys in byte order. Ids and permissions
    /// are written as texts, and a field without a value as null. A bot line of version 1 has neither
    /// its version nor what it means. A reader that allows the line
    /// reads it back if the text has at most 65,536 bytes.
    pub fn text(&self, alloc: Global) -> Result<String, AllocError>
        ensures text { IfOk result (λ text. string_bytes text ≡ compact_text (line_data self.now)) }
        ensures reads_back { IfOk result (λ text. (reader : ReaderState) →
            allows reader self.now ≡ true → length (string_bytes text) ≤ 65536 →
            line_of reader (string_bytes text) ≡ Ok (Some self.now)) }
    {
        let value = self.value(alloc)?;
        value.to_string(alloc)
    }
}
