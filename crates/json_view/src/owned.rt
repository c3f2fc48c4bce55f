//! A JSON value of `serde_json`, which owns its texts.

use crate::json_value::JsonValue;
use serde_json::Value;

impl JsonValue for Value {
    ghost use Rattle.serde_json.specs.View.{view};

    ghost meaning = { view };

    fn member(&self, name: &str) -> Option<&Value> {
        self.get(name)
    }

    fn is_null(&self) -> bool {
        matches!(self, Value::Null)
    }

    fn whole(&self) -> Option<u64> {
        self.as_u64()
    }

    fn flag(&self) -> Option<bool> {
        self.as_bool()
    }

    fn text(&self) -> Option<&str> {
        self.as_str()
    }
}
