//! The edits of voice states and presences: when each is refused, and what it makes of a guild's
//! record.
#![tactic(auto)]

ghost use Rattle.std.specs.Prelude.{◌≡◌, None, true, IfOk, OnOk, OnErr};
ghost use Rattle.guild_model.specs.Tests.{outcome};
ghost use Rattle.voice_presence.specs.VoicePresence.{voice_presence_verdict, voice_presence_applied};

pub mod presence_set;
pub mod voice_set;

use guild_model::{Guild, Verdict};
pub use presence_set::PresenceSet;
use std::alloc::AllocError;
pub use voice_set::VoiceSet;

/// An edit of a member's voice state or presence.
#[derive(Clone, Copy, Drop, PartialEq, Eq, Debug)]
pub enum VoicePresenceEdit {
    /// Puts a member into a voice channel, or takes it out of voice.
    VoiceSet(VoiceSet),
    /// Sets the status of a member.
    PresenceSet(PresenceSet),
}

/// Refuses an edit of an open guild with the verdict of its first test that fails. Does not
/// allocate.
pub fn check(guild: &Guild, edit: &VoicePresenceEdit) -> Result<(), Verdict>
    ensures { result ≡ outcome (voice_presence_verdict guild.now edit.now) }
{
    match edit {
        VoicePresenceEdit::VoiceSet(edit) => voice_set::check(guild, edit),
        VoicePresenceEdit::PresenceSet(edit) => presence_set::check(guild, edit),
    }
}

/// Makes an edit that [`check`] does not refuse. If it runs out of memory, the record stays as it
/// was.
pub fn apply(guild: &mut Guild, edit: VoicePresenceEdit) -> Result<(), AllocError>
    requires open { guild.old.opened ≡ true }
    requires accepted { voice_presence_verdict guild.old edit ≡ None }
    ensures ok { OnOk result (guild.new ≡ voice_presence_applied guild.old edit) }
    ensures err { OnErr result (guild.new ≡ guild.old) }
{
    match edit {
        VoicePresenceEdit::VoiceSet(edit) => voice_set::apply(guild, edit),
        VoicePresenceEdit::PresenceSet(edit) => presence_set::apply(guild, edit),
    }
}
