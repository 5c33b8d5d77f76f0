ghost use Rattle.std.specs.Prelude.{◌≡◌, IfOk, None, Some, if◌then◌else◌, map, option_map};
ghost use Rattle.std.specs.Option.{option_copied, option_or};
ghost use Rattle.frag_sem.specs.Modules.{module_of, same_element};
ghost use Rattle.frag_tree.specs.declared.block.Element.{Element};
ghost use Rattle.frag_tree.specs.Trees.{in_line, module_tree};
ghost use Rattle.frag_rules.specs.Elements.{element_of};
ghost use Rattle.frag_rules.specs.Insides.{found_inside, holds_nothing, is_there};

use crate::named::Named;
use frag_tree::{Element, Module};
use pac_base::NoMemory;
use std::alloc::Global;

/// What is known of each module of one parent, by the element that names it.
#[derive(Drop)]
pub struct Inside<'a, T> {
    registers: Named<'a, T>,
    blocks: Named<'a, T>,
}

impl<'a, T: Drop> Inside<'a, T> {
    /// No modules.
    pub fn new(alloc: Global) -> Inside<'a, T>
        ensures { holds_nothing result }
    {
        Inside {
            registers: Named::new(alloc),
            blocks: Named::new(alloc),
        }
    }

    /// What is known of the module that the element names.
    #[tactic(auto, unfolding(crate::specs::Insides::found_inside))]
    pub fn get(&self, element: &Element) -> Option<&T>
        ensures { option_copied result ≡ found_inside self.now element.now }
    {
        match element {
            Element::Register { module } => self.registers.get(module.bytes()),
            Element::Block { module } => self.blocks.get(module.bytes()),
        }
    }

    /// Keeps what is known of a module, where none before it is named so.
    pub fn keep(&mut self, unit: &'a Module, known: T) -> Result<(), NoMemory>
        ensures { IfOk result (λ _. (wanted : Element) → found_inside self.new wanted ≡ option_or (found_inside self.old wanted) (if same_element wanted (element_of (module_tree unit.now)) then Some known else None)) }
    {
        match unit {
            Module::Register(register) => self.registers.keep(register.name.bytes(), known),
            Module::Block(block) => self.blocks.keep(block.name.bytes(), known),
        }
    }
}

/// Which modules stand inside one parent.
pub(crate) fn inside_of<'a>(
    alloc: Global,
    modules: &'a [Module],
) -> Result<Inside<'a, ()>, NoMemory>
    ensures { IfOk result (λ inside. (element : Element) → found_inside inside element ≡ option_map is_there (module_of element (in_line (map module_tree modules.now)))) }
{
    let mut inside = Inside::new(alloc);
    let mut rest = modules;
    while let Some((first, others)) = rest.split_first() {
        inside.keep(first, ())?;
        rest = others;
    }
    Ok(inside)
}
