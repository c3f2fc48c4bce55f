//! Whether a mask lets its holder see a channel or a thread.

ghost use Rattle.std.specs.Prelude.{◌≡◌, ◌&&◌, ◌||◌, not};
ghost use Rattle.perm_bits.specs.Bits.{has_bit};
ghost use Rattle.perm_bits.specs.Permissions.{view_channel, manage_threads};
ghost use Rattle.guild_model.specs.Sight.{is_private};

use guild_model::ThreadKind;
use perm_bits::Perms;

/// Whether a mask lets its holder view the channel.
pub(crate) fn may_view(mask: Perms) -> bool
    ensures { result ≡ has_bit mask view_channel }
{
    mask.has(Perms::VIEW_CHANNEL)
}

// Whether a mask lets its holder see the private threads of the channel.
fn may_manage_threads(mask: Perms) -> bool
    ensures { result ≡ has_bit mask manage_threads }
{
    mask.has(Perms::MANAGE_THREADS)
}

/// Whether a thread is seen by one that has this mask in its parent, and is in it or not.
pub(crate) fn shows_thread(mask: Perms, kind: ThreadKind, joined: bool) -> bool
    ensures { result ≡ (has_bit mask view_channel
        && (not (is_private kind) || joined || has_bit mask manage_threads)) }
{
    may_view(mask) && (!kind.is_private() || joined || may_manage_threads(mask))
}
