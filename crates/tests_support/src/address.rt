//! A node that holds a text, as a caller's own type.

use raft_base::NodeDefault;
use std::alloc::{AllocError, Global};

/// A node by its address.
#[derive(Debug, Clone, PartialEq, Eq, Drop)]
pub struct Address {
    pub text: String,
}

impl NodeDefault for Address {
    ghost use Rattle.std.specs.Prelude.{◌≡◌, [], string_bytes, refl};

    ghost is_default_node = { λ n. string_bytes n.text ≡ [] };

    fn default_node(alloc: Global) -> Result<Address, AllocError> {
        Ok(Address {
            text: String::new(alloc),
        })
    }

    ghost one_default = { λ a b h k. rw (h, k) refl };
}
