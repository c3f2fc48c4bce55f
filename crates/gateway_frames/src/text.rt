//! The texts of frames, in wire form.

ghost use Rattle.std.specs.Prelude.{◌≡◌, ◌≤◌, length, Ok, IfOk, string_bytes};
ghost use Rattle.serde_json.specs.Written.{compact_text};
ghost use Rattle.gateway_frames.specs.Read.{frame_of};
ghost use Rattle.gateway_frames.specs.Written.{frame_data, MaySend};

use crate::Frame;
use crate::values::frame_value;
use std::alloc::{AllocError, Global};

impl Frame {
    /// The text of the frame in wire form: without spaces, keys in byte order, optional
    /// keys without a value left out.
    pub fn text(&self, alloc: Global) -> Result<String, AllocError>
        ensures text { IfOk result (λ text. string_bytes text ≡ compact_text (frame_data self.now)) }
        ensures reads_back { IfOk result (λ text. MaySend self.now → length (string_bytes text) ≤ 4096 → frame_of (string_bytes text) ≡ Ok self.now) }
    {
        let value = frame_value(alloc, self)?;
        value.to_string(alloc)
    }
}
