//! What is held of one guild.

ghost use Rattle.std.specs.Prelude.{◌≡◌, []};
ghost use Rattle.client_cache.specs.Cached.{empty_entry, unavailable_entry};

use crate::fold::Fold;
use collections::{ById, Keyed};
use dispatch_types::GuildView;
use snowflake_id::Snowflake;
use std::alloc::Global;

/// What is held of one guild: its view, if there is one, and the users that the client was told of.
pub struct HeldGuild {
    pub id: Snowflake,
    pub view: Option<GuildView>,
    pub known: ById<Snowflake>,
}

impl Drop for HeldGuild {
    fn drop(self) {
        let HeldGuild { id: _, view, known } = self;
        drop(view);
        drop(known);
    }
}

impl Keyed for HeldGuild {
    ghost key = { λ h. h.id };

    fn key(&self) -> u64 {
        self.id.0
    }
}

impl HeldGuild {
    /// A guild of which nothing is held.
    pub(crate) fn empty(alloc: Global, id: Snowflake) -> HeldGuild
        ensures { result ≡ empty_entry id }
    {
        HeldGuild {
            id,
            view: None,
            known: ById::new(alloc),
        }
    }

    /// A guild that READY names.
    pub(crate) fn unavailable(fold: &Fold, id: Snowflake) -> HeldGuild
        ensures { result ≡ unavailable_entry fold.now.intents id }
    {
        HeldGuild {
            id,
            view: fold.unavailable_view(true),
            known: ById::new(fold.alloc),
        }
    }
}
