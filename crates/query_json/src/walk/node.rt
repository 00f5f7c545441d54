//! A node of a tree of JSON: of the tree that is read from a file, or of a `serde_json` value.
ghost use Rattle.std.specs.Prelude.{◌≡◌, is_some, map, option_and_then, option_map};
ghost use Rattle.json.specs.declared.value.Value.{Value as Tree};
ghost use Rattle.serde_json.specs.Data.{Data};
ghost use Rattle.serde_json.specs.Find.{as_array, as_null, as_number, as_object, as_str, as_u64, get};
ghost use Rattle.serde_json.specs.View.{items_of, view};
ghost use Rattle.query_json.specs.Walk.Tree.{seen};

use crate::walk::number::whole;

/// A value in a tree of JSON, which contracts see as the data that `serde_json` makes of it.
pub trait Node: Sized {
    ghost as_data: { Self → Data };

    /// Whether it is null.
    fn is_null(&self) -> bool
        ensures { result ≡ is_some (as_null (as_data self.now)) };

    /// Whether it is an object.
    fn is_object(&self) -> bool
        ensures { result ≡ is_some (as_object (as_data self.now)) };

    /// The last member of a name, where it is an object.
    fn member<'v>(&'v self, name: &str) -> Option<&'v Self>
        ensures { option_map (λ v. as_data v.now) result ≡ get name.now (as_data self.now) };

    /// The items, where it is an array.
    fn items<'v>(&'v self) -> Option<&'v [Self]>
        ensures { option_map (λ vs. items_of (map as_data vs.now)) result ≡ as_array (as_data self.now) };

    /// The text, where it is a string.
    fn text<'v>(&'v self) -> Option<&'v str>
        ensures { option_map (λ s. s.now) result ≡ as_str (as_data self.now) };

    /// The value of a whole number from 0 below 2^64, which has no point and no exponent.
    fn whole(&self) -> Option<u64>
        ensures { result ≡ option_and_then as_u64 (as_number (as_data self.now)) };
}

impl<'a> Node for json::Value<'a> {
    ghost as_data = { seen };

    fn is_null(&self) -> bool {
        json::Value::is_null(self)
    }

    fn is_object(&self) -> bool {
        match self {
            json::Value::Object(_) => true,
            _ => false,
        }
    }

    fn member<'v>(&'v self, name: &str) -> Option<&'v Self> {
        self.get(name)
    }

    fn items<'v>(&'v self) -> Option<&'v [Self]> {
        match self {
            json::Value::Array(items) => Some(items.as_slice()),
            _ => None,
        }
    }

    fn text<'v>(&'v self) -> Option<&'v str> {
        match self {
            json::Value::String(text) => Some(*text),
            _ => None,
        }
    }

    fn whole(&self) -> Option<u64> {
        match self {
            json::Value::Number(text) => whole(*text),
            _ => None,
        }
    }
}

impl Node for serde_json::Value {
    ghost as_data = { view };

    fn is_null(&self) -> bool {
        serde_json::Value::is_null(self)
    }

    fn is_object(&self) -> bool {
        serde_json::Value::is_object(self)
    }

    fn member<'v>(&'v self, name: &str) -> Option<&'v Self> {
        self.get(name)
    }

    fn items<'v>(&'v self) -> Option<&'v [Self]> {
        match self.as_array() {
            Some(items) => Some(items.as_slice()),
            None => None,
        }
    }

    fn text<'v>(&'v self) -> Option<&'v str> {
        self.as_str()
    }

    fn whole(&self) -> Option<u64> {
        self.as_u64()
    }
}
