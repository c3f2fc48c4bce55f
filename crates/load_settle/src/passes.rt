//! Each send pass is settled with the take pass of its post.

ghost use Rattle.std.specs.Prelude.{◌≡◌, All};
ghost use Rattle.load_settle.specs.Passes.{AreTakers, HasEndedAt, IsTakenWhole};

use edit_post::{Post, SendPass, TakePass};
use std::sync::Wait;

// Settles one pass.
fn settle_at<R: Wait + Drop>(posts: &[Post<R>], taken: &mut [TakePass], place: u8, pass: SendPass)
    requires taken { AreTakers posts.now taken.old }
    requires sent { HasEndedAt posts.now (place, pass) }
    ensures same { taken.new ≡ taken.old }
    ensures whole { IsTakenWhole taken.old (place, pass) }
{
    let place = usize::from(place);
    posts[place].settle(&mut taken[place], pass);
}

/// Settles each pass with the take pass of its post, which stands at its place.
pub fn settle_each<R: Wait + Drop>(
    posts: &[Post<R>],
    taken: &mut [TakePass],
    mut sent: Vec<(u8, SendPass)>,
)
    requires taken { AreTakers posts.now taken.old }
    requires sent { All (HasEndedAt posts.now) sent.items }
    ensures same { taken.new ≡ taken.old }
    ensures whole { All (IsTakenWhole taken.old) sent.items }
{
    while let Some((place, pass)) = sent.pop() {
        settle_at(posts, taken, place, pass);
    }
}
