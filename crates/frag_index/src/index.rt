ghost use Rattle.std.specs.Prelude.{◌≡◌, IfOk, IfSome, option_map, slice_get};
ghost use Rattle.frag_sem.specs.CallPlaces.{slot_named};
ghost use Rattle.frag_sem.specs.Modules.{top_block};
ghost use Rattle.frag_sem.specs.PlaceTyping.{inner_named};
ghost use Rattle.frag_tree.specs.Trees.{crate_tree, one_block};
ghost use Rattle.frag_index.specs.Sites.{IsIndex, IsNumbered, LeadsBehind, behind_seen, inner_tree};

use crate::built::{Tops, add_tops};
use crate::site::{Behind, Inner, Site};
use frag_rules::{Named, by_name};
use frag_tree::{Crate, Slot};
use pac_base::NoMemory;
use std::alloc::Global;

/// The index of a crate.
#[derive(Drop)]
pub struct Index<'a> {
    pub krate: &'a Crate,
    pub slots: Named<'a, &'a Slot>,
    pub tops: Tops<'a>,
}

impl<'a> Index<'a> {
    /// The index of a crate: each of its blocks is looked at once.
    pub fn new(alloc: Global, krate: &'a Crate) -> Result<Index<'a>, NoMemory>
        ensures index { IfOk result IsIndex }
        ensures krate { IfOk result (λ index. index.krate.now ≡ krate.now) }
    {
        let slots = by_name(alloc, krate.slots.as_slice())?;
        let tops = add_tops(alloc, krate.blocks.as_slice())?;
        Ok(Index { krate, slots, tops })
    }

    /// The slot of a name.
    pub fn slot(&self, name: &[u8]) -> Option<&'a Slot>
        requires { IsIndex self.now }
        ensures { option_map (λ slot. slot.now) result ≡ slot_named name.now (crate_tree self.now.krate.now).slots }
    {
        self.slots.get(name).copied()
    }

    /// The block module at the top that has the name.
    pub fn top<'i>(&'i self, name: &[u8]) -> Option<&'i Inner<'a>>
        requires { IsIndex self.now }
        ensures same { option_map (λ unit. inner_tree unit.now) result ≡ option_map one_block (top_block name.now (crate_tree self.now.krate.now).blocks) }
        ensures numbered { IfSome result (λ unit. IsNumbered self.now.tops.sites.items unit.now) }
    {
        self.tops.named.get(name)
    }

    /// The module behind the accessor of a name.
    pub fn behind<'i>(&'i self, unit: &Inner<'a>, name: &[u8]) -> Option<Behind<'i, 'a>>
        requires index { IsIndex self.now }
        requires numbered { IsNumbered self.now.tops.sites.items unit.now }
        ensures same { option_map behind_seen result ≡ inner_named (inner_tree unit.now) name.now }
        ensures numbered { IfSome result (λ behind. IsNumbered self.now.tops.sites.items behind.unit.now) }
    {
        self.found_behind(unit, name)
    }

    fn found_behind<'i>(&'i self, unit: &Inner<'a>, name: &[u8]) -> Option<Behind<'i, 'a>>
        requires index { IsIndex self.now }
        requires numbered { IsNumbered self.now.tops.sites.items unit.now }
        ensures { LeadsBehind self.now.tops.sites.items (inner_named (inner_tree unit.now) name.now) result }
    {
        match unit {
            Inner::Register(_) => None,
            Inner::Block(_, number) => match self.site_at(*number) {
                Some(site) => site.behind(name),
                None => None,
            },
        }
    }

    /// The site of a number.
    pub(crate) fn site_at(&self, number: usize) -> Option<&Site<'a>>
        ensures { option_map (λ site. site.now) result ≡ slice_get self.now.tops.sites.items number }
    {
        self.tops.sites.get(number)
    }
}
