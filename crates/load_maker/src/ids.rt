//! The ids and names of a load.

ghost use Rattle.std.specs.Prelude.{◌≡◌, ◌+◌, IfOk};
ghost use Rattle.load_maker.specs.Edits.{guild_id, bot_name};

use collections::Text;
use snowflake_id::Snowflake;
use std::alloc::{AllocError, Global};

/// The id of the guild with this number.
pub(crate) fn guild_id(number: u8) -> u32
    ensures { result ≡ guild_id number }
{
    u32::from(number) * 4_194_304
}

/// The id of something in a guild, which lies this far above the guild's.
pub(crate) fn id_in(guild: u32, offset: u32) -> Snowflake
    ensures { result ≡ guild + offset }
{
    Snowflake(u64::from(guild) + u64::from(offset))
}

/// The id of a bot or another user.
pub(crate) fn user_id(user: u32) -> Snowflake
    ensures { result ≡ user }
{
    Snowflake(u64::from(user))
}

/// The name of a bot, which is its token too.
pub(crate) fn bot_name(alloc: Global, bot: u32) -> Result<Text, AllocError>
    ensures { IfOk result (λ name. name ≡ bot_name bot) }
{
    Ok(Text::from_string(format!(in alloc; "b{bot}")?))
}
