//! The edits that clients ask for: a status of their own bot (Gateway Events, Update Presence), or a
//! voice channel for it (Gateway Events, Update Voice State).
#![tactic(auto)]

ghost use Rattle.std.specs.Prelude.{◌≡◌};
ghost use Rattle.wishes.specs.Wishes.{is_heard, presence_wish, voice_wish};
ghost use Rattle.wishes.specs.Law.{PresenceIsAccepted};

use dispatch_types::{Viewer, serves};
use edit_apply::{Edit, VoicePresenceEdit};
use gateway_frames::VoiceAsk;
use guild_model::{Guild, Status};
use voice_presence::{PresenceSet, VoiceSet};

// Whether the viewer is served the guild, and the guild is available.
fn is_heard(guild: &Guild, viewer: &Viewer) -> bool
    ensures { result ≡ is_heard guild.now viewer.now }
{
    serves(guild, viewer) && !guild.outage
}

/// The edit that sets the status of a viewer's bot in a guild. `None` exactly if the viewer is not
/// served the guild, or the guild is in an outage. Does not allocate.
pub fn presence_wish(guild: &Guild, viewer: &Viewer, status: Status) -> Option<Edit>
    ensures { result ≡ presence_wish guild.now viewer.now status }
{
    if !is_heard(guild, viewer) {
        return None;
    }
    let wish = PresenceSet {
        user: viewer.user,
        status,
    };
    Some(Edit::VoicePresence(VoicePresenceEdit::PresenceSet(wish)))
}

/// The edit that puts a viewer's bot into a voice channel of a guild, or takes it out of voice. `None`
/// exactly if the request names another guild, the viewer is not served this one, or it is in an
/// outage. Whether the bot may join the channel is judged with the edit. Does not allocate.
pub fn voice_wish(guild: &Guild, viewer: &Viewer, ask: &VoiceAsk) -> Option<Edit>
    ensures { result ≡ voice_wish guild.now viewer.now ask.now }
{
    if ask.guild != guild.id || !is_heard(guild, viewer) {
        return None;
    }
    let wish = VoiceSet {
        user: viewer.user,
        channel: ask.channel,
        self_mute: ask.self_mute,
        self_deaf: ask.self_deaf,
    };
    Some(Edit::VoicePresence(VoicePresenceEdit::VoiceSet(wish)))
}

/// A status that a client asks for is accepted in the guild as it then was.
pub fn presence_is_accepted()
    ensures { PresenceIsAccepted }
{}
