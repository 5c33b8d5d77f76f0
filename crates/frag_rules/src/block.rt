ghost use Rattle.std.specs.Prelude.{◌≡◌, ◌&&◌, IfOk, Option, is_none, is_some, map, not, option_map};
ghost use Rattle.std.specs.List.{list_all};
ghost use Rattle.frag_sem.specs.CrateTyping.{block_names_differ, body_has_members, holds_such, is_array, is_free, is_one, type_has_members};
ghost use Rattle.frag_sem.specs.Modules.{same_element};
ghost use Rattle.frag_tree.specs.Trees.{block_tree, in_line, module_tree};
ghost use Rattle.frag_rules.specs.Bodies.{body_fits, body_leads, misfit, type_leads};
ghost use Rattle.frag_rules.specs.Insides.{found_inside};
ghost use Rattle.frag_rules.specs.Naming.{named_in};
ghost use Rattle.frag_rules.specs.Rules.{block_test};

use crate::inside::{Inside, inside_of};
use crate::named::{Named, by_name, first_again};
use crate::parts::{items_before, own_items};
use crate::place::{behind, earlier};
use crate::prelude::is_free;
use crate::rule::BlockRule;
use frag_tree::{Access, Block, Body, Element, FieldType, Module, StructField, Version};
use pac_base::NoMemory;
use std::alloc::Global;

/// The fields of the struct of a block.
pub(crate) fn fields_of(block: &Block) -> &[StructField]
    ensures { result.now ≡ (block_tree block.now).head.fields }
{
    block.fields.as_slice()
}

/// The accessors of a block.
pub(crate) fn accessors_of(block: &Block) -> &[Access]
    ensures { result.now ≡ (block_tree block.now).head.accessors }
{
    block.accessors.as_slice()
}

/// The modules of a block.
pub(crate) fn modules_of(block: &Block) -> &[Module]
    ensures { in_line (map module_tree result.now) ≡ (block_tree block.now).inside }
{
    block.modules.as_slice()
}

/// A field of a block as an item of it.
fn field_item(field: Option<usize>) -> Option<usize>
    ensures { is_none result ≡ is_none field }
{
    behind(1, field)
}

/// An accessor of a block as an item of it.
fn accessor_item(block: &Block, accessor: Option<usize>) -> Option<usize>
    ensures { is_none result ≡ is_none accessor }
{
    behind(block.fields.len().saturating_add(1), accessor)
}

fn type_leads(inside: &Inside<'_, ()>, holds: &FieldType) -> bool
    ensures { result ≡ type_leads (λ element. is_some (found_inside inside.now element)) holds.now }
{
    match holds {
        FieldType::One(element) => inside.get(element).is_some(),
        FieldType::Array { element, .. } => inside.get(element).is_some(),
        FieldType::Gap { .. } => true,
    }
}

fn field_leading_nowhere(inside: &Inside<'_, ()>, fields: &[StructField]) -> Option<usize>
    ensures { result ≡ misfit (λ field. type_leads (λ element. is_some (found_inside inside.now element)) field.holds) fields.now }
{
    fields
        .iter()
        .position(|field| !type_leads(inside, &field.holds))
}

fn accessor_leading_nowhere(inside: &Inside<'_, ()>, accessors: &[Access]) -> Option<usize>
    ensures { result ≡ misfit (λ access. is_some (found_inside inside.now access.element)) accessors.now }
{
    accessors
        .iter()
        .position(|access| !inside.get(&access.element).is_some())
}

/// The first field or accessor whose element names no module inside the block.
fn module_paths(alloc: Global, block: &Block) -> Result<Option<usize>, NoMemory>
    ensures { IfOk result (λ item. is_none item ≡ block_test BlockRule.ModulePaths Version.One (block_tree block.now)) }
{
    let inside = inside_of(alloc, modules_of(block))?;
    let field = field_leading_nowhere(&inside, fields_of(block));
    let accessor = accessor_leading_nowhere(&inside, accessors_of(block));
    Ok(earlier(field_item(field), accessor_item(block, accessor)))
}

fn body_leads(fields: &Named<'_, &StructField>, body: &Body) -> bool
    ensures { result ≡ body_leads (named_in fields.now) body.now }
{
    match body {
        Body::Field { field } => fields.get(field.bytes()).is_some(),
        Body::Member { field } => fields.get(field.bytes()).is_some(),
        Body::At { .. } => true,
        Body::AtIndex { .. } => true,
    }
}

fn body_leading_nowhere(fields: &Named<'_, &StructField>, accessors: &[Access]) -> Option<usize>
    ensures { result ≡ misfit (λ access. body_leads (named_in fields.now) access.body) accessors.now }
{
    accessors
        .iter()
        .position(|access| !body_leads(fields, &access.body))
}

/// The first accessor whose body names no field.
fn body_fields(alloc: Global, block: &Block) -> Result<Option<usize>, NoMemory>
    ensures { IfOk result (λ item. is_none item ≡ block_test BlockRule.BodyFields Version.One (block_tree block.now)) }
{
    let fields = by_name(alloc, fields_of(block))?;
    Ok(accessor_item(block, body_leading_nowhere(&fields, accessors_of(block))))
}

/// Whether both elements name one module.
pub(crate) fn same_element(one: &Element, other: &Element) -> bool
    ensures { result ≡ same_element one.now other.now }
{
    match (one, other) {
        (Element::Register { module }, Element::Register { module: also }) => {
            module.bytes() == also.bytes()
        }
        (Element::Block { module }, Element::Block { module: also }) => {
            module.bytes() == also.bytes()
        }
        (Element::Register { .. }, Element::Block { .. }) => false,
        (Element::Block { .. }, Element::Register { .. }) => false,
    }
}

fn is_one(element: &Element, field: Option<&&StructField>) -> bool
    ensures { result ≡ holds_such (is_one element.now) (option_map (λ found. found.now.now) field.entry) }
{
    match field {
        Some(field) => match &field.holds {
            FieldType::One(other) => same_element(element, other),
            FieldType::Array { .. } => false,
            FieldType::Gap { .. } => false,
        },
        None => false,
    }
}

fn is_array(element: &Element, field: Option<&&StructField>) -> bool
    ensures { result ≡ holds_such (is_array element.now) (option_map (λ found. found.now.now) field.entry) }
{
    match field {
        Some(field) => match &field.holds {
            FieldType::One(_) => false,
            FieldType::Array { element: other, .. } => same_element(element, other),
            FieldType::Gap { .. } => false,
        },
        None => false,
    }
}

fn body_fits(fields: &Named<'_, &StructField>, access: &Access) -> bool
    ensures { result ≡ body_fits (named_in fields.now) access.now access.now.body }
{
    match &access.body {
        Body::Field { field } => {
            !access.is_indexed && is_one(&access.element, fields.get(field.bytes()))
        }
        Body::Member { field } => {
            access.is_indexed && is_array(&access.element, fields.get(field.bytes()))
        }
        Body::At { .. } => !access.is_indexed,
        Body::AtIndex { .. } => access.is_indexed,
    }
}

fn body_of_other_type(fields: &Named<'_, &StructField>, accessors: &[Access]) -> Option<usize>
    ensures { result ≡ misfit (λ access. body_fits (named_in fields.now) access access.body) accessors.now }
{
    accessors
        .iter()
        .position(|access| !body_fits(fields, access))
}

/// The first accessor whose body is of another type.
fn body_types(alloc: Global, block: &Block) -> Result<Option<usize>, NoMemory>
    ensures { IfOk result (λ item. is_none item ≡ block_test BlockRule.BodyTypes Version.One (block_tree block.now)) }
{
    let fields = by_name(alloc, fields_of(block))?;
    Ok(accessor_item(block, body_of_other_type(&fields, accessors_of(block))))
}

fn type_has_members(holds: &FieldType) -> bool
    ensures { result ≡ type_has_members holds.now }
{
    match holds {
        FieldType::One(_) => true,
        FieldType::Array { count, .. } => *count >= 1,
        FieldType::Gap { .. } => true,
    }
}

fn body_has_members(body: &Body) -> bool
    ensures { result ≡ body_has_members body.now }
{
    match body {
        Body::Field { .. } => true,
        Body::Member { .. } => true,
        Body::At { .. } => true,
        Body::AtIndex { count, .. } => *count >= 1,
    }
}

fn field_without_members(fields: &[StructField]) -> Option<usize>
    ensures { result ≡ misfit (λ field. type_has_members field.holds) fields.now }
{
    fields
        .iter()
        .position(|field| !type_has_members(&field.holds))
}

fn accessor_without_members(accessors: &[Access]) -> Option<usize>
    ensures { result ≡ misfit (λ access. body_has_members access.body) accessors.now }
{
    accessors
        .iter()
        .position(|access| !body_has_members(&access.body))
}

/// The first field or accessor whose count is 0.
fn counts(block: &Block) -> Option<usize>
    ensures { is_none result ≡ block_test BlockRule.Counts Version.One (block_tree block.now) }
{
    earlier(
        field_item(field_without_members(fields_of(block))),
        accessor_item(block, accessor_without_members(accessors_of(block))),
    )
}

fn accessor_of_prelude(version: Version, accessors: &[Access]) -> Option<usize>
    ensures { result ≡ misfit (λ access. is_free version access.name) accessors.now }
{
    accessors
        .iter()
        .position(|access| !is_free(version, access.name.bytes()))
}

/// The first accessor that has a name of the prelude.
fn prelude_names(version: Version, block: &Block) -> Option<usize>
    ensures { is_none result ≡ block_test BlockRule.PreludeNames version (block_tree block.now) }
{
    accessor_item(block, accessor_of_prelude(version, accessors_of(block)))
}

/// The first field, accessor or module of a block whose name another has that stands before it.
fn distinct_names(alloc: Global, block: &Block) -> Result<Option<usize>, NoMemory>
    ensures { IfOk result (λ item. is_none item ≡ block_test BlockRule.DistinctNames Version.One (block_tree block.now)) }
{
    let field = first_again(alloc, fields_of(block))?;
    let accessor = first_again(alloc, accessors_of(block))?;
    let inner = first_again(alloc, modules_of(block))?;
    let own = earlier(field_item(field), accessor_item(block, accessor));
    Ok(earlier(own, module_item(block, inner)))
}

/// A module inside a block as an item of it: behind the fields, the accessors, and all that is in the modules before.
fn module_item(block: &Block, inner: Option<usize>) -> Option<usize>
    ensures { is_none result ≡ is_none inner }
{
    match inner {
        Some(inner) => {
            let before = items_before(block.modules.as_slice(), inner);
            Some(own_items(block).saturating_add(before))
        }
        None => None,
    }
}

/// The first item of a block that breaks the rule, counted from the block itself.
#[tactic(auto, unfolding(crate::specs::Rules::block_test))]
pub(crate) fn broken_in_block(
    alloc: Global,
    rule: BlockRule,
    version: Version,
    block: &Block,
) -> Result<Option<usize>, NoMemory>
    ensures { IfOk result (λ item. is_none item ≡ block_test rule version (block_tree block.now)) }
{
    match rule {
        BlockRule::DistinctNames => distinct_names(alloc, block),
        BlockRule::ModulePaths => module_paths(alloc, block),
        BlockRule::BodyFields => body_fields(alloc, block),
        BlockRule::BodyTypes => body_types(alloc, block),
        BlockRule::Counts => Ok(counts(block)),
        BlockRule::PreludeNames => Ok(prelude_names(version, block)),
    }
}
