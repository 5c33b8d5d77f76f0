ghost use Rattle.std.specs.Prelude.{◌≡◌, ◌↔◌, IfOk, IsErrOf};
ghost use Rattle.frag_tree.specs.declared.identifier.IdentifierFault.TheVariants.{Memory};
ghost use Rattle.rust_names.specs.Identifiers.{IsIdentifier};

use pac_base::NoMemory;
use rust_names::is_identifier;
use std::alloc::{AllocError, Global};
use std::marker::Model;
use std::rc::RcSlice;
use thiserror::Error;

/// A name of the crate text or of a script: a letter or `_`, then letters, digits and `_`. It isn't
/// `_` alone and no keyword of Rust. Contracts see it as the list of its bytes. Copies share them.
#[derive(Debug, Drop)]
pub struct Identifier {
    bytes: RcSlice<u8>,
}

impl Model for Identifier {
    ghost use Rattle.std.specs.Prelude.{List, ℕ};
    ghost use Rattle.rust_names.specs.Identifiers.{IsIdentifier};
    ghost use Rattle.std.specs.Rc.{rc_slice_items};

    ghost Value = { List ℕ };

    ghost view = { λ identifier. rc_slice_items identifier.bytes };

    ghost invariant = { λ identifier. IsIdentifier (rc_slice_items identifier.bytes) };
}

/// Why bytes became no identifier.
#[derive(Debug, Drop, Error)]
pub enum IdentifierFault {
    /// The bytes aren't an identifier.
    #[error("not an identifier")]
    NotAnIdentifier,
    /// Memory was wanting.
    #[error("out of memory")]
    Memory,
}

impl From<AllocError> for IdentifierFault {
    ghost from_gives = { λ _ fault. fault ≡ Memory };

    fn from(_error: AllocError) -> IdentifierFault {
        IdentifierFault::Memory
    }
}

impl Identifier {
    /// The identifier that the bytes spell. `NotAnIdentifier` exactly where they aren't one.
    pub fn new(alloc: Global, bytes: &[u8]) -> Result<Identifier, IdentifierFault>
        ensures ok { IfOk result (λ identifier. (identifier ≡ bytes.now) × IsIdentifier bytes.now) }
        ensures refused { IsErrOf result IdentifierFault.NotAnIdentifier ↔ ¬ (IsIdentifier bytes.now) }
    {
        if !is_identifier(bytes) {
            return Err(IdentifierFault::NotAnIdentifier);
        }
        Ok(Identifier {
            bytes: RcSlice::from_slice(alloc, bytes)?,
        })
    }

    /// The identifier that these bytes spell, which are known to be one, without a look at them.
    pub fn known(alloc: Global, bytes: &[u8]) -> Result<Identifier, NoMemory>
        requires { IsIdentifier bytes.now }
        ensures { IfOk result (λ identifier. identifier ≡ bytes.now) }
    {
        Ok(Identifier {
            bytes: RcSlice::from_slice(alloc, bytes)?,
        })
    }

    /// The same identifier once more, which takes no memory.
    pub fn copy(&self) -> Result<Identifier, NoMemory>
        ensures { IfOk result (λ identifier. identifier ≡ self.now) }
    {
        Ok(Identifier {
            bytes: self.bytes.clone()?,
        })
    }

    /// The same bytes, which are an identifier.
    pub fn bytes(&self) -> &[u8]
        ensures same { result.now ≡ self.now }
        ensures form { IsIdentifier self.now }
    {
        self.bytes.as_slice()
    }
}

impl PartialEq for Identifier {
    ghost use Rattle.std.specs.Prelude.{◌==◌};
    ghost use Rattle.std.specs.Cmp.Lexicographic.{pointwise};
    ghost use Rattle.std.specs.Cmp.Rules.{comparing};
    ghost use Rattle.std.proofs.Common.{rules};

    ghost eq = { pointwise ◌==◌ };

    ghost laws = { Prim.search (comparing, rules) };

    fn eq(&self, other: &Identifier) -> bool {
        self.bytes.as_slice() == other.bytes.as_slice()
    }
}

impl Eq for Identifier {
    ghost use Rattle.std.specs.Cmp.Rules.{comparing};
    ghost use Rattle.std.proofs.Common.{rules};

    ghost laws = { Prim.search (comparing, rules) };
}
