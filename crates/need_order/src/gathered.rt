ghost use Rattle.std.specs.Prelude.{◌≡◌, [], length, IfOk, OnOk, slice_get};
ghost use Rattle.std.specs.Option.{option_copied};
ghost use Rattle.need_order.specs.Gathering.{gathering, with_item};
ghost use Rattle.need_order.specs.Needs.{among};

use pac_base::NoMemory;
use std::alloc::Global;
use std::marker::Model;

/// Distinct numbers below a limit, in the order in which they came.
#[derive(Drop)]
pub(crate) struct Gathered {
    flags: Vec<bool>,
    items: Vec<usize>,
}

impl Model for Gathered {
    ghost use Rattle.std.specs.Prelude.{length};
    ghost use Rattle.need_order.specs.Gathering.{Gathering, gathering, FlagsTell};

    ghost Value = { Gathering };

    ghost view = { λ set. gathering (length set.flags.items) set.items.items };

    ghost invariant = { λ set. FlagsTell set.flags.items set.items.items };
}

impl Gathered {
    /// No number yet.
    pub(crate) fn new(alloc: Global, limit: usize) -> Result<Gathered, NoMemory>
        ensures { IfOk result (λ made. made ≡ gathering limit []) }
    {
        Ok(Gathered {
            flags: vec![in alloc; false; limit]?,
            items: Vec::new(alloc),
        })
    }

    /// Whether the number is there.
    pub(crate) fn has(&self, item: usize) -> bool
        ensures { result ≡ among item self.now.items }
    {
        match self.flags.get(item) {
            Some(flag) => *flag,
            None => false,
        }
    }

    /// How many there are.
    pub(crate) fn len(&self) -> usize
        ensures { result ≡ length self.now.items }
    {
        self.items.len()
    }

    /// The number at a place.
    pub(crate) fn get(&self, index: usize) -> Option<&usize>
        ensures { option_copied result ≡ slice_get self.now.items index }
    {
        self.items.get(index)
    }

    /// Adds a number, if it is below the limit and isn't there yet.
    pub(crate) fn add(&mut self, item: usize) -> Result<(), NoMemory>
        ensures { OnOk result (self.new ≡ gathering self.old.limit (with_item self.old.limit item self.old.items)) }
    {
        if item >= self.flags.len() {
            return Ok(());
        }
        if self.flags[item] {
            return Ok(());
        }
        self.items.push(item)?;
        self.flags[item] = true;
        Ok(())
    }

    /// The numbers themselves.
    pub(crate) fn into_items(self) -> Vec<usize>
        ensures { result.items ≡ self.items }
    {
        self.items
    }
}
