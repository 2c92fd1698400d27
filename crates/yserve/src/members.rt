//! Objects of messages, made member by member.

use serde_json::{Map, Value, put};
use std::alloc::{AllocError, Global};

/// The members of an object that is being made.
///
/// It remembers that memory was refused, so what adds to it need not ask; `done` tells it.
pub struct Members {
    alloc: Global,
    map: Map<String, Value>,
    is_short: bool,
}

impl Drop for Members {
    // A call in each owner, which keeps their proofs short.
    fn drop(self) {
        let Members {
            alloc: _,
            map: _,
            is_short: _,
        } = self;
    }
}

impl Members {
    /// None.
    pub fn new(alloc: Global) -> Members {
        Members {
            alloc,
            map: Map::new(alloc),
            is_short: false,
        }
    }

    /// With one more, where memory sufficed for its value.
    pub fn with(mut self, name: &str, value: Result<Value, AllocError>) -> Members {
        let is_put = match value {
            Ok(value) => put(&mut self.map, self.alloc, name, value).is_ok(),
            Err(_) => false,
        };
        self.is_short = self.is_short || !is_put;
        self
    }

    /// With a text.
    pub fn with_text(self, name: &str, text: &str) -> Members {
        let value = Value::try_from_str(self.alloc, text);
        self.with(name, value)
    }

    /// The object, where memory sufficed for it.
    pub fn done(self) -> Result<Value, AllocError> {
        let Members {
            alloc: _,
            map,
            is_short,
        } = self;
        if is_short {
            return Err(AllocError);
        }
        Ok(Value::Object(map))
    }
}
