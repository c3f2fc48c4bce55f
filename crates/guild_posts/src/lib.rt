//! The posts of the actors of guilds: an edit of a guild goes to the post of its actor.
//!
//! Whoever sends has one pass of each post, in order. The guild at place p of a list goes by the pass at
//! place p modulo the number of posts, and a guild that does not stand in the list by the first.
#![tactic(auto)]

ghost use Rattle.std.specs.Prelude.{◌≡◌, ◌↔◌, ◌<◌, [], ◌∷◌, Err, true, length, map, MatchResult};
ghost use Rattle.edit_post.specs.Post.{after_send, after_end};
ghost use Rattle.edit_post.specs.declared.send_refused.SendRefused.TheVariants.{Spent};
ghost use Rattle.guild_posts.specs.Posts.{ArePasses, AreSent, IsRefusedBySome, has_sent_all, pass_of_guild, request_of};

use edit_apply::Edit;
use edit_post::{Post, Request, SendPass, SendRefused};
use guild_places::place_of;
use indexmap::IndexSet;
use snowflake_id::Snowflake;
use std::sync::Wait;

// Sends an edit by a pass.
fn send_by<R: Wait + Drop>(
    post: &Post<R>,
    pass: &mut SendPass,
    guild: Snowflake,
    edit: Edit,
) -> Result<(), SendRefused>
    requires post { pass.old.post ≡ post.now }
    requires unended { pass.old.mark ≡ 0 }
    ensures sent { MatchResult result (λ _. pass.new ≡ after_send pass.old (request_of pass.old (guild, edit))) (λ _. pass.new ≡ pass.old) }
    ensures spent { (result ≡ Err Spent) ↔ (has_sent_all pass.old ≡ true) }
{
    let request = Request {
        sender: pass.sender(),
        number: pass.next(),
        guild,
        edit,
    };
    match post.send(pass, request) {
        Ok(()) => Ok(()),
        Err((request, refused)) => {
            drop(request);
            Err(refused)
        }
    }
}

// The place of the pass by which a guild goes, of so many.
fn pass_of_guild(index: &IndexSet<u64>, guild: Snowflake, count: usize) -> usize
    requires { 0 < count }
    ensures place { result ≡ pass_of_guild index.now.keys count guild }
    ensures inside { result < count }
{
    match place_of(index, guild) {
        Some(place) => place % count,
        None => 0,
    }
}

/// Sends an edit of a guild to the post of its actor, by the pass that the guild goes by.
///
/// # Errors
/// `Spent` only if a pass has sent 2^57 requests, and `Memory`. Both leave the passes as they were.
pub fn send<R: Wait + Drop>(
    posts: &[Post<R>],
    passes: &mut Vec<SendPass>,
    index: &IndexSet<u64>,
    guild: Snowflake,
    edit: Edit,
) -> Result<(), SendRefused>
    requires some { 0 < length posts.now }
    requires passes { ArePasses posts.now passes.old.items }
    ensures { MatchResult result (λ _. AreSent index.now.keys ((guild, edit) ∷ []) passes.old.items passes.new.items) (λ refused. (passes.new.items ≡ passes.old.items) × IsRefusedBySome passes.new.items refused) }
{
    let by = pass_of_guild(index, guild, posts.len());
    send_by(&posts[by], &mut passes[by], guild, edit)
}

/// Ends each pass. The call does not allocate.
pub fn end_all<R: Wait + Drop>(posts: &[Post<R>], passes: &mut Vec<SendPass>)
    requires { ArePasses posts.now passes.old.items }
    ensures { passes.new.items ≡ map after_end passes.old.items }
{
    for (place, pass) in passes.iter_mut().enumerate() {
        posts[place].end(pass);
    }
}
