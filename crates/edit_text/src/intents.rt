//! Reads and writes the set of intents of a bot.

ghost use Rattle.std.specs.Prelude.{◌≡◌, ◌∷◌, [], true, OnOk};
ghost use Rattle.json_view.specs.Nodes.{view};
ghost use Rattle.edit_fields.specs.Fields.{within};
ghost use Rattle.edit_fields.specs.Members.{count, HasPut};
ghost use Rattle.edit_text.specs.Intents.{are_intents, intents_at};

use crate::LineFault;
use edit_fields::members::put_number;
use intent_set::Intents;
use json_view::{Node, number_of};
use serde_json::{Map, Value};
use std::alloc::{AllocError, Global};

fn intents_from(bits: u64) -> Result<Intents, LineFault>
    ensures { result ≡ within (are_intents bits) bits }
{
    match Intents::of_bits(bits) {
        Err(_) => Err(LineFault::WrongType),
        Ok(intents) => Ok(intents),
    }
}

/// Reads a set of intents.
pub fn intents_at(object: &Node<'_>, name: &str) -> Result<Intents, LineFault>
    ensures { result ≡ intents_at name.now (view object.now) }
{
    intents_from(number_of(object, name)?)
}

/// Puts a set of intents, as a number.
pub fn put_intents(
    alloc: Global,
    members: &mut Map<String, Value>,
    name: &str,
    intents: Intents,
) -> Result<(), AllocError>
    ensures put { OnOk result
        (HasPut members.old.entries members.new.entries ((name.now, count intents) ∷ [])) }
    ensures fits { OnOk result (are_intents intents ≡ true) }
{
    put_number(alloc, members, name, intents.bits())?;
    Ok(())
}
