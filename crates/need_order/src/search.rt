use crate::element::{Element, rank_of};
use pac_base::NoMemory;
use std::alloc::Global;

/// What a search in depth proposes (Tarjan's search for strong components, with its stack on the heap).
/// Nothing that is promised relies on it.
#[derive(Drop)]
pub(crate) struct Hints {
    /// Elements, each after what it needs where that can be.
    pub order: Vec<usize>,
    /// A number for each element, equal for those that need each other, and falling along needs.
    pub ranks: Vec<usize>,
}

/// What is known of each element while the search goes on.
#[derive(Drop)]
struct Search {
    /// When an element was first met; 0 where it wasn't.
    met: Vec<usize>,
    /// The earliest element that is known to be in its component, by when it was met.
    low: Vec<usize>,
    /// Elements whose component isn't closed yet.
    held: Vec<usize>,
    /// The path down: elements, each with how many of its needs were looked at.
    path: Vec<(usize, usize)>,
    /// How many elements were met.
    time: usize,
    /// How many components were closed.
    components: usize,
}

fn write_at(numbers: &mut [usize], index: usize, number: usize) {
    if index < numbers.len() {
        numbers[index] = number;
    }
}

impl Element {
    /// What it needs, by a number: its base first.
    fn need(&self, index: usize) -> Option<usize> {
        match self.base {
            Some(base) if index == 0 => Some(base),
            Some(_) => self.parts.as_slice().get(index - 1).copied(),
            None => self.parts.as_slice().get(index).copied(),
        }
    }
}

impl Search {
    fn meet(&mut self, number: usize) -> Result<(), NoMemory> {
        self.time = self.time.saturating_add(1);
        let time = self.time;
        write_at(&mut self.met, number, time);
        write_at(&mut self.low, number, time);
        self.held.push(number)?;
        self.path.push((number, 0))?;
        Ok(())
    }

    fn lower(&mut self, number: usize, to: usize) {
        if to < rank_of(&self.low, number) {
            write_at(&mut self.low, number, to);
        }
    }

    /// All that is held from an element on is its component.
    fn close(&mut self, number: usize, ranks: &mut [usize]) {
        self.components = self.components.saturating_add(1);
        for _left in 0..self.held.len() {
            if let Some(other) = self.held.pop() {
                write_at(ranks, other, self.components);
                if other == number {
                    return;
                }
            }
        }
    }

    /// One step: down to a need, or up from an element that is done.
    fn step(&mut self, elements: &[Element], hints: &mut Hints) -> Result<bool, NoMemory> {
        let (number, index) = match self.path.pop() {
            Some(entry) => entry,
            None => return Ok(false),
        };
        let need = match elements.get(number) {
            Some(element) => element.need(index),
            None => None,
        };
        match need {
            Some(need) => {
                self.path.push((number, index.saturating_add(1)))?;
                self.look_at(number, need, hints)?;
            }
            None => self.leave(number, hints)?,
        }
        Ok(true)
    }

    fn look_at(&mut self, number: usize, need: usize, hints: &Hints) -> Result<(), NoMemory> {
        if rank_of(&self.met, need) == 0 {
            return self.meet(need);
        }
        if rank_of(&hints.ranks, need) == 0 {
            let met = rank_of(&self.met, need);
            self.lower(number, met);
        }
        Ok(())
    }

    fn leave(&mut self, number: usize, hints: &mut Hints) -> Result<(), NoMemory> {
        hints.order.push(number)?;
        let low = rank_of(&self.low, number);
        if low == rank_of(&self.met, number) {
            self.close(number, &mut hints.ranks);
        }
        if let Some(entry) = self.path.pop() {
            self.path.push(entry)?;
            self.lower(entry.0, low);
        }
        Ok(())
    }
}

/// How many steps a search takes at most.
fn step_limit(elements: &[Element]) -> usize {
    let mut limit: usize = 0;
    for element in elements {
        limit = limit.saturating_add(element.parts.len()).saturating_add(3);
    }
    limit
}

/// Hints for these elements.
pub(crate) fn hinted(alloc: Global, elements: &[Element]) -> Result<Hints, NoMemory> {
    let mut hints = Hints {
        order: Vec::new(alloc),
        ranks: vec![in alloc; 0; elements.len()]?,
    };
    let mut search = Search {
        met: vec![in alloc; 0; elements.len()]?,
        low: vec![in alloc; 0; elements.len()]?,
        held: Vec::new(alloc),
        path: Vec::new(alloc),
        time: 0,
        components: 0,
    };
    let limit = step_limit(elements);
    for root in 0..elements.len() {
        if rank_of(&search.met, root) == 0 {
            search.meet(root)?;
            for _step in 0..limit {
                if !search.step(elements, &mut hints)? {
                    break;
                }
            }
        }
    }
    Ok(hints)
}
