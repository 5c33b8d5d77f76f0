// The worked rows: whole calls of `pac` over files, sinks and buses in memory, with their outputs, fault
// lines and statuses.
#![tactic(auto)]

#[cfg(test)]
mod derived;
#[cfg(test)]
mod executed;
#[cfg(test)]
mod faults;
#[cfg(test)]
mod generated;
#[cfg(test)]
mod harness;
#[cfg(test)]
mod inputs;
#[cfg(test)]
mod patched;
#[cfg(test)]
mod ran;
#[cfg(test)]
mod registers;
#[cfg(test)]
mod sampled;
#[cfg(test)]
mod strict;
#[cfg(test)]
mod surroundings;
