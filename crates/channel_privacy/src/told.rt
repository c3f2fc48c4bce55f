//! What becomes of a dispatch that is told where no channel is withheld.

ghost use Rattle.std.specs.Prelude.{◌≡◌, true, false, option_to_list};
ghost use Rattle.collections.specs.ById.{has_id};
ghost use Rattle.guild_model.specs.Record.{voice_id};
ghost use Rattle.channel_privacy.specs.Withheld.{left_voice, told_voice, told_shown};
ghost use Rattle.channel_privacy.specs.ByNote.{showing_by};
ghost use Rattle.channel_privacy.specs.Fates.{told_as};

use crate::before::ShownBefore;
use dispatch_types::{Dispatch, VoiceObject, VoiceStateUpdate};
use overwrite_eval::StandingRef;

/// What becomes of a dispatch.
#[derive(Clone, Copy)]
pub enum Fate {
    /// It is told as it is.
    Told,
    /// It is told that the user is in voice no longer.
    Left,
    /// It is not told.
    Withheld,
}

// A dispatch that is told as it is, or not at all.
fn told_if(shown: bool) -> Fate
    ensures shown { shown ≡ true → result ≡ Fate.Told }
    ensures hidden { shown ≡ false → result ≡ Fate.Withheld }
{
    if shown { Fate::Told } else { Fate::Withheld }
}

// What becomes of a voice state: it is told where its channel is shown, and its end where the one before
// it was.
fn voice_fate(
    was: &ShownBefore,
    private: bool,
    standing: &StandingRef<'_>,
    update: &VoiceStateUpdate,
) -> Fate
    ensures { told_as result (Dispatch.VoiceStateUpdate update.now)
        ≡ told_voice (showing_by was.now private standing.now) update.now update.now.voice.channel }
{
    let spoke = was.speaking.contains(update.voice.user.0);
    match update.voice.channel {
        Some(channel) if standing.shows(private, channel) => Fate::Told,
        Some(_) if spoke => Fate::Left,
        Some(_) => Fate::Withheld,
        None if spoke => Fate::Told,
        None => Fate::Withheld,
    }
}

fn fate_of(
    was: &ShownBefore,
    private: bool,
    standing: &StandingRef<'_>,
    dispatch: &Dispatch,
) -> Fate
    ensures { told_as result dispatch.now ≡ told_shown (showing_by was.now private standing.now) dispatch.now }
{
    match dispatch {
        Dispatch::ChannelCreate(object) => told_if(standing.shows(private, object.id)),
        Dispatch::ChannelUpdate(object) => told_if(
            was.shown.contains(object.id.0) && standing.shows(private, object.id),
        ),
        Dispatch::ChannelDelete(object) => told_if(was.shown.contains(object.id.0)),
        Dispatch::VoiceStateUpdate(update) => voice_fate(was, private, standing, update),
        _ => Fate::Told,
    }
}

// A user that went where it is not shown, as in voice no longer.
fn left_voice(update: &VoiceStateUpdate) -> Dispatch
    ensures { result ≡ left_voice update.now }
{
    Dispatch::VoiceStateUpdate(VoiceStateUpdate {
        guild: update.guild,
        voice: VoiceObject {
            user: update.voice.user,
            channel: None,
            self_mute: false,
            self_deaf: false,
        },
    })
}

// The end of a voice state. No other dispatch has one.
fn ended(dispatch: &Dispatch) -> Option<Dispatch>
    ensures { option_to_list result ≡ told_as Fate.Left dispatch.now }
{
    match dispatch {
        Dispatch::VoiceStateUpdate(update) => Some(left_voice(update)),
        _ => None,
    }
}

/// A dispatch as it is told, by what was noted before the edit and the standing of the viewer's own member
/// after it. `private`: channels are withheld after the edit. `None` exactly if it is not told.
pub(crate) fn told(
    was: &ShownBefore,
    private: bool,
    standing: &StandingRef<'_>,
    dispatch: Dispatch,
) -> Option<Dispatch>
    ensures { option_to_list result ≡ told_shown (showing_by was.now private standing.now) dispatch }
{
    match fate_of(was, private, standing, &dispatch) {
        Fate::Told => Some(dispatch),
        Fate::Left => {
            let end = ended(&dispatch);
            drop(dispatch);
            end
        }
        Fate::Withheld => {
            drop(dispatch);
            None
        }
    }
}
