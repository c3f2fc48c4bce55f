//! The edits of a run.

use edit_apply::Edit;
use edit_text::Line;
use snowflake_id::Snowflake;
use std::alloc::{AllocError, Global};

/// The guilds of the script's part, whose ids `load_maker` states.
pub const GUILDS: [Snowflake; 2] = [Snowflake(4_194_304), Snowflake(8_388_608)];

/// The token and the name of a bot that the script adds to both guilds.
pub const BOT_NAME: &str = "b1";

/// Its user.
pub const BOT_USER: Snowflake = Snowflake(1);

/// The first edits of a seed's script, in order, at most so many, each with its guild.
pub fn edits(alloc: Global, seed: u64, most: usize) -> Result<Vec<(Snowflake, Edit)>, AllocError> {
    let mut edits = Vec::new(alloc);
    for line in load_maker::script(alloc, seed, 0)? {
        if edits.len() >= most {
            break;
        }
        if let Line::Edit { guild, edit } = line {
            edits.push((guild, edit))?;
        }
    }
    Ok(edits)
}
