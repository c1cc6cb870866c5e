//! What the reader needs to know of lines.
ghost use Rattle.std.specs.Prelude.{◌≡◌, IfOk, Result};
ghost use Rattle.serde_json.specs.Data.{Data};
ghost use Rattle.retro_value.specs.Borrowed.{value_data};
ghost use Rattle.retro_json.specs.declared.fault.Refusal.{Refusal};
ghost use Rattle.retro_log.specs.inner.Parts.{Kind, version_key};

use json::Value;
use retro_json::OrRefusal;
use retro_tree::NoMem;
use std::alloc::Global;

/// A line of a document, of a script or of a log.
pub trait Line: Drop {
    /// The kind of documents that have such lines.
    ghost kind: { Kind };

    /// The line that a value is, or why it is refused.
    ghost line_of: { Data → Result Self Refusal };

    /// Returns the key of the version of a document that has such lines.
    fn version_key() -> &'static str
        ensures { result.now ≡ version_key kind };

    /// Reads a line from a value.
    fn read_line(alloc: Global, value: &Value<'_>) -> Result<OrRefusal<Self>, NoMem>
        ensures { IfOk result (λ line. line ≡ line_of (value_data value.now)) };
}
