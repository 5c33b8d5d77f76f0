use need_order::{Element, NeedFault, is_within, ordered};
use pac_base::NoMemory;
use std::alloc::Global;
use std::test::Fail;

// An element: its base, and its parts.
type Row = (Option<usize>, &'static [usize]);

// A part that begins as another one, on which a third is based too; a chain against the order of numbers; no
// element at all.
const ORDERED: &[&[Row]] = &[
    &[
        (None, &[1, 2, 4]),
        (Some(3), &[]),
        (Some(3), &[]),
        (None, &[]),
        (Some(1), &[5]),
        (None, &[]),
    ],
    &[(Some(1), &[]), (Some(2), &[]), (Some(3), &[]), (None, &[])],
    &[],
];

// Elements with a circle, and the first one with a base that lies on one: of two that are based on each other;
// that is its own base; behind one that only leads to a circle; through a part; none where no base is on it.
const CIRCLES: &[(&[Row], Option<usize>)] = &[
    (&[(None, &[1, 2]), (Some(2), &[]), (Some(1), &[])], Some(1)),
    (&[(None, &[1]), (Some(1), &[])], Some(1)),
    (&[(Some(1), &[]), (Some(2), &[]), (Some(2), &[])], Some(2)),
    (&[(None, &[1]), (None, &[2]), (Some(1), &[])], Some(2)),
    (&[(None, &[1]), (None, &[0])], None),
];

fn elements(alloc: Global, rows: &[Row]) -> Result<Vec<Element>, NoMemory> {
    let mut elements = Vec::new(alloc);
    for row in rows {
        let mut parts = Vec::new(alloc);
        for part in row.1 {
            parts.push(*part)?;
        }
        elements.push(Element { base: row.0, parts })?;
    }
    Ok(elements)
}

// The order of the rows, or the first one with a base on a circle.
fn order_of(alloc: Global, rows: &[Row]) -> Result<Vec<usize>, NeedFault> {
    let elements = elements(alloc, rows)?;
    if !is_within(elements.as_slice()) {
        return Err(NeedFault::Memory);
    }
    ordered(alloc, elements.as_slice())
}

// Whether all that a row needs stands among these.
fn has_needs(before: &[usize], row: &Row) -> bool {
    if let Some(base) = row.0 {
        if !before.contains(&base) {
            return false;
        }
    }
    for part in row.1 {
        if !before.contains(part) {
            return false;
        }
    }
    true
}

// Whether each number in the order stands behind its needs.
fn is_order(order: &[usize], rows: &[Row]) -> bool {
    for (place, number) in order.iter().enumerate() {
        let before = order.split_at(place).0;
        match rows.get(*number) {
            Some(row) => {
                if !has_needs(before, row) {
                    return false;
                }
            }
            None => return false,
        }
    }
    order.len() == rows.len()
}

// Whether the rows have an order.
fn have_order(alloc: Global, rows: &[Row]) -> bool {
    match order_of(alloc, rows) {
        Ok(order) => is_order(order.as_slice(), rows),
        Err(_) => false,
    }
}

#[test]
fn elements_stand_behind_their_needs(rt: HostRuntime) {
    for (place, rows) in ORDERED.iter().enumerate() {
        assert!(rt; have_order(rt.alloc(), *rows), "{place}");
    }
}

// Whether the rows have a circle, with this first element with a base on it.
fn have_circle(alloc: Global, rows: &[Row], wanted: Option<usize>) -> bool {
    match order_of(alloc, rows) {
        Err(NeedFault::Circle { first }) => first == wanted,
        _ => false,
    }
}

#[test]
fn the_first_on_a_circle_is_told(rt: HostRuntime) {
    for (place, &(rows, wanted)) in CIRCLES.iter().enumerate() {
        assert!(rt; have_circle(rt.alloc(), rows, wanted), "{place}");
    }
}

#[test]
fn a_need_past_the_elements_is_seen(rt: HostRuntime) -> Result<(), Fail> {
    let elements = elements(rt.alloc(), &[(None, &[1])])?;
    assert!(rt; !is_within(elements.as_slice()));
    Ok(())
}
