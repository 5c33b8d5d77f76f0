ghost use Rattle.std.specs.Prelude.{◌≡◌};
ghost use Rattle.frag_sem.specs.CrateTyping.{CrateFits};
ghost use Rattle.frag_tree.specs.Trees.{crate_tree};

use frag_tree::{Crate, Script};
use std::marker::Model;

/// A crate that fits: each typing rule holds. Contracts see it as the crate.
#[derive(Drop)]
pub struct TypedCrate {
    krate: Crate,
}

impl Model for TypedCrate {
    ghost use Rattle.frag_sem.specs.CrateTyping.{CrateFits};
    ghost use Rattle.frag_tree.specs.Trees.{crate_tree};
    ghost use Rattle.frag_tree.specs.declared.krate.Crate.{Crate};
    ghost use Rattle.frag_tree.specs.contracts.block.Block as unit;
    ghost use Rattle.std.specs.Coded.{codes};

    ghost Value = { Crate };

    ghost coded = { Prim.hlevel (codes, unit.the_row.coded) };

    ghost view = { λ typed. typed.krate };

    ghost invariant = { λ typed. CrateFits (crate_tree typed.krate) };
}

impl TypedCrate {
    /// The crate as one that fits, which is the condition.
    pub(crate) fn new(krate: Crate) -> TypedCrate
        requires { CrateFits (crate_tree krate) }
        ensures { result ≡ krate }
    {
        TypedCrate { krate }
    }

    /// The tree that was typed.
    pub fn krate(&self) -> &Crate
        ensures same { result.now ≡ self.now }
        ensures fits { CrateFits (crate_tree self.now) }
    {
        &self.krate
    }
}

/// A script that was typed against a crate. Contracts see it as the script.
#[derive(Drop)]
pub struct TypedScript {
    script: Script,
}

impl Model for TypedScript {
    ghost use Rattle.frag_tree.specs.declared.script.Script.{Script};

    ghost Value = { Script };

    ghost view = { λ typed. typed.script };
}

impl TypedScript {
    /// The script as one that was typed.
    pub(crate) fn new(script: Script) -> TypedScript
        ensures { result ≡ script }
    {
        TypedScript { script }
    }

    /// The tree that was typed.
    pub fn script(&self) -> &Script
        ensures { result.now ≡ self.now }
    {
        &self.script
    }

    /// The tree that was typed, out of its type.
    pub fn into_script(self) -> Script
        ensures { result ≡ self }
    {
        self.script
    }
}
