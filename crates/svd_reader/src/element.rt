ghost use Rattle.std.specs.Prelude.{◌≡◌, Some, map};
ghost use Rattle.svd_schema.specs.Names.{container_name};
ghost use Rattle.svd_schema.specs.Table.{role_of};
ghost use Rattle.svd_reader.specs.Walk.{held_as};
ghost use Rattle.svd_keys.specs.Children.{has_name, members};
ghost use Rattle.svd_reader.specs.DescribedTree.{inside};
ghost use Rattle.svd_text.specs.Views.{element_of};

use svd_schema::{Container, Role, role};
use svd_text::Element;

/// Whether an element has the name of this container.
pub fn is_named(element: &Element, container: Container) -> bool
    ensures { result ≡ has_name (container_name container) (element_of element.now) }
{
    element.name == container.name().as_bytes()
}

// The container that an element is by its role.
fn held_as(what: Role) -> Option<Container>
    ensures { result ≡ held_as (Some what) }
{
    match what {
        Role::Holds(inner) => Some(inner),
        Role::States(_) | Role::PassedOver => None,
    }
}

/// The container that an element in a container is; none where it is none.
pub fn held(container: Container, element: &Element) -> Option<Container>
    ensures { result ≡ held_as (role_of container (element_of element.now).0.name) }
{
    match role(container, element.name) {
        Some(what) => held_as(what),
        None => None,
    }
}

/// The elements in the first container of that name in an element.
pub fn inside<'e, 'a>(element: &'e Element<'a>, container: Container) -> &'e [Element<'a>]
    ensures { map element_of result.now ≡ members (inside (container_name container) (element_of element.now)) }
{
    for child in &element.children {
        if is_named(child, container) {
            return child.children.as_slice();
        }
    }
    &[]
}
