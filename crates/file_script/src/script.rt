//! A script whose file was read to its first step line.

ghost use Rattle.std.specs.Prelude.{◌≡◌};

use crate::fault::ScriptFault;
use crate::script_lines::ScriptLines;
use edit_text::Line;

/// A script whose file was read to the end of its head: what ended it is the first that the script
/// handles, and what was read ahead is kept.
pub struct FileScript {
    pub(crate) lines: ScriptLines,
    pub(crate) first: Result<Option<Line>, ScriptFault>,
}

// One call drops it, so that no crate above proves the drop of what it holds again.
impl Drop for FileScript {
    fn drop(self) {
        let FileScript { lines, first } = self;
        drop(lines);
        drop(first);
    }
}

impl FileScript {
    // What was read ahead, and what ended the head.
    pub(crate) fn into_parts(self) -> (ScriptLines, Result<Option<Line>, ScriptFault>)
        ensures lines { result.0 ≡ self.lines }
        ensures first { result.1 ≡ self.first }
    {
        let FileScript { lines, first } = self;
        (lines, first)
    }
}
