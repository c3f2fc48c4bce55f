//! What a JSON value is, whether it owns its texts or borrows them.

ghost use Rattle.std.specs.Prelude.{◌≡◌};

/// A JSON value. A clause sees its data.
pub trait JsonValue {
    ghost use Rattle.std.specs.Prelude.{None, Option, Some, if◌then◌else◌, option_map};
    ghost use Rattle.serde_json.specs.Data.{Data};
    ghost use Rattle.serde_json.specs.Find.{as_bool, as_str, get};
    ghost use Rattle.json_view.specs.Fields.{unless_null, whole};

    ghost meaning: { Self → Data };

    /// The value of a key. `None` exactly if this is no object, or has no such key.
    fn member(&self, name: &str) -> Option<&Self>
        ensures { option_map (λ v. meaning v.now) result ≡ get name.now (meaning self.now) };

    /// Whether the value is null.
    fn is_null(&self) -> bool
        ensures { unless_null (meaning self.now) ≡ (if result then None else Some (meaning self.now)) };

    /// The whole number from 0 to 2^64 - 1 that the value is.
    fn whole(&self) -> Option<u64>
        ensures { result ≡ whole (meaning self.now) };

    /// The boolean that the value is.
    fn flag(&self) -> Option<bool>
        ensures { result ≡ as_bool (meaning self.now) };

    /// The text that the value is.
    fn text(&self) -> Option<&str>
        ensures { option_map (λ s. s.now) result ≡ as_str (meaning self.now) };
}
