ghost use Rattle.patch_ready.specs.Ready.{SpelledAreReady};

/// The commands of a patch that block text spells are ready.
pub fn ready_law()
    ensures { SpelledAreReady }
{}
