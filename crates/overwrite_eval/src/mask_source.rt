//! What answers a user's masks, whether they are kept or worked out.

use perm_bits::Perms;
use snowflake_id::Snowflake;

/// What answers the masks of one user in the channels of one guild.
pub trait MaskSource {
    ghost use Rattle.std.specs.Prelude.{ℕ};
    ghost use Rattle.guild_model.specs.Record.{Record};
    ghost use Rattle.overwrite_eval.specs.MaskIn.{IsMaskIn};

    /// The records and users whose masks it answers.
    ghost stands_for: { Self → Record → ℕ → Type 0 };

    /// What the user may do in a channel (Permissions, Permission Overwrites). `None` exactly if the
    /// channel does not exist.
    fn mask(&self, channel: Snowflake) -> Option<Perms>
        ensures { (s : Record) (user : ℕ) → stands_for self.now s user
            → IsMaskIn s user channel result };
}
