// The worked rows of reading, checking and listing descriptions: calls of each layer with what they
// answer, where no call of the program shows it.
#![tactic(auto)]

#[cfg(test)]
mod case_tables;
#[cfg(test)]
mod checks;
#[cfg(test)]
mod elements;
#[cfg(test)]
mod field_arrays;
#[cfg(test)]
mod files;
#[cfg(test)]
mod indexes;
#[cfg(test)]
mod keys;
#[cfg(test)]
mod names;
#[cfg(test)]
mod numbers;
#[cfg(test)]
mod orders;
#[cfg(test)]
mod overlaps;
#[cfg(test)]
mod pages;
#[cfg(test)]
mod parts;
#[cfg(test)]
mod sinks;
#[cfg(test)]
mod states;
#[cfg(test)]
mod vendor;
#[cfg(test)]
mod words;
