//! What an actor holds while it takes requests.

ghost use Rattle.std.specs.Prelude.{◌≡◌, ◌++◌, ◌∷◌, [], List, ℕ, false, All, OnOk, OnErr, IfOk};
ghost use Rattle.edit_post.specs.declared.request.Request.{Request};
ghost use Rattle.guild_hub.specs.Writes.{Publishing};
ghost use Rattle.guild_actor.specs.Acts.{AreNew};
ghost use Rattle.guild_places.specs.Places.{AreDistinct, guilds_of};
ghost use Rattle.guild_actor.specs.Desks.{held_after, logs_of};

use crate::publishing::publish_at;
use edit_post::Request;
use guild_hub::HubWriter;
use guild_places::{index_of, place_of};
use indexmap::IndexSet;
use snowflake_id::Snowflake;
use std::alloc::{AllocError, Global};
use std::marker::Model;
use std::sync::Wait;

/// The writers of an actor, how many requests were for other guilds, and how many found a full log.
#[derive(Drop)]
pub struct Desk<R: Wait + Drop> {
    pub writers: Vec<(Snowflake, HubWriter<R>)>,
    pub index: IndexSet<u64>,
    pub strays: u64,
    pub full: u64,
}

impl<R: Wait + Drop> Model for Desk<R> {
    ghost use Rattle.std.specs.Prelude.{◌≡◌};
    ghost use Rattle.guild_places.specs.Places.{AreDistinct, guilds_of};
    ghost use Rattle.guild_actor.specs.Desks.{Holding, holding};

    ghost Value = { Holding };

    ghost view = { λ d. holding d.writers.items d.strays d.full };

    ghost invariant = { λ d. (d.index.keys ≡ guilds_of d.writers.items) × AreDistinct (guilds_of d.writers.items) };
}

impl<R: Wait + Drop> Desk<R> {
    /// The writers, before the first request.
    pub fn of(alloc: Global, writers: Vec<(Snowflake, HubWriter<R>)>) -> Result<Desk<R>, AllocError>
        requires { AreDistinct (guilds_of writers.items) × AreNew writers.items }
        ensures { IfOk result (λ desk. desk ≡ held_after writers.items []) }
    {
        let index = index_of(alloc, &writers)?;
        Ok(Desk {
            writers,
            index,
            strays: 0,
            full: 0,
        })
    }

    /// Publishes a request in the log of its guild. It counts a request for no guild of these, and one
    /// that finds a full log. An `Err` leaves the logs as they were.
    pub fn deliver(&mut self, request: Request) -> Result<(), AllocError>
        requires unspent { All (λ w. w.1.spent ≡ false) self.old.writers }
        ensures ok { OnOk result ((requests : List Request) (writers : List (ℕ × Publishing)) → self.old ≡ held_after writers requests → self.new ≡ held_after writers (requests ++ request ∷ [])) }
        ensures err { OnErr result (logs_of self.new.writers ≡ logs_of self.old.writers) }
    {
        let Some(place) = place_of(&self.index, request.guild) else {
            drop(request);
            self.strays = self.strays.saturating_add(1);
            return Ok(());
        };
        if !publish_at(&mut self.writers, place, request.edit)? {
            self.full = self.full.saturating_add(1);
        }
        Ok(())
    }
}
