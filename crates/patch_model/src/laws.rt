ghost use Rattle.std.specs.Prelude.{◌≡◌, ℕ, List};
ghost use Rattle.patch_model.specs.Answers.{IsPatch};
ghost use Rattle.patch_model.specs.Readings.{IsReadAs, Reading};
ghost use Rattle.yaml_block.specs.Answers.{IsBlock};
ghost use Rattle.yaml_block.specs.Trees.{Tree};

/// The bytes of a patch come to one thing.
pub fn one_reading()
    ensures { (bytes : List ℕ) (one other : Reading) → IsReadAs bytes one → IsReadAs bytes other → one ≡ other }
{}

/// What block text spells is a mapping, or nothing.
pub fn patch_law()
    ensures { (bytes : List ℕ) (tree : Tree) → IsBlock bytes tree → IsPatch tree }
{}
