//! To whom an edit is told.

ghost use Rattle.std.specs.Prelude.{◌≡◌};
ghost use Rattle.intent_set.specs.Asks.{asks};
ghost use Rattle.guild_model.specs.Sight.{standing};
ghost use Rattle.thread_sync.specs.ChannelSights.{sights};

use collections::ById;
use dispatch_types::Viewer;
use guild_model::{Guild, Member};
use intent_set::Kind;
use snowflake_id::Snowflake;
use std::marker::Model;
use thread_sync::ChannelSight;

/// A viewer that is served after an edit, with the record after the edit and the viewer's own member
/// in it.
#[derive(Drop)]
pub struct Recipient<'a> {
    pub after: &'a Guild,
    pub viewer: &'a Viewer,
    pub me: &'a Member,
    /// The sights of the channels that the member sees after the edit, if they were worked out already.
    pub sights_after: Option<&'a ById<ChannelSight>>,
}

impl<'a> Model for Recipient<'a> {
    ghost use Rattle.std.specs.Prelude.{◌≡◌, IfSome};
    ghost use Rattle.guild_model.specs.Sight.{standing};
    ghost use Rattle.thread_sync.specs.ChannelSights.{sights};
    ghost use Rattle.event_views.specs.Served.{Served};

    ghost Value = { Served };

    ghost view = { λ r. record {
      after = r.after.now;
      viewer = r.viewer.now;
      me = r.me.now;
    } };

    ghost invariant = { λ r. IfSome r.sights_after (λ known. known.now ≡ sights (standing r.after.now r.me.now)) };
}

impl<'a> Recipient<'a> {
    /// A viewer of whose sights nothing is worked out yet.
    pub fn new(after: &'a Guild, viewer: &'a Viewer, me: &'a Member) -> Recipient<'a>
        ensures { result ≡ record { after = after.now; viewer = viewer.now; me = me.now } }
    {
        Recipient {
            after,
            viewer,
            me,
            sights_after: None,
        }
    }

    /// A viewer with the sights of the channels that its member sees after the edit.
    pub fn with_sights(
        after: &'a Guild,
        viewer: &'a Viewer,
        me: &'a Member,
        known: &'a ById<ChannelSight>,
    ) -> Recipient<'a>
        requires { known.now ≡ sights (standing after.now me.now) }
        ensures { result ≡ record { after = after.now; viewer = viewer.now; me = me.now } }
    {
        Recipient {
            after,
            viewer,
            me,
            sights_after: Some(known),
        }
    }

    /// Whether the viewer's intents ask for dispatches of this kind; `own` for one about the viewer's
    /// own bot (Gateway, Gateway Intents).
    pub fn asks(&self, kind: Kind, own: bool) -> bool
        ensures { result ≡ asks self.now.viewer.intents kind own }
    {
        let viewer = self.viewer;
        viewer.intents.asks(kind, own)
    }

    /// The guild of the record.
    pub fn guild(&self) -> Snowflake
        ensures { result ≡ self.now.after.id }
    {
        let after = self.after;
        after.id
    }

    /// The viewer's bot.
    pub fn user(&self) -> Snowflake
        ensures { result ≡ self.now.viewer.user }
    {
        let viewer = self.viewer;
        viewer.user
    }
}
