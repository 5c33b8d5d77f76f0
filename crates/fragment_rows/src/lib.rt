// The worked rows of the crate text, of scripts and of buses: whole calls that read, print and keep them,
// with what each answers.
#![tactic(auto)]

#[cfg(test)]
mod buses;
#[cfg(test)]
mod crate_text;
#[cfg(test)]
mod events;
#[cfg(test)]
mod fitting;
#[cfg(test)]
mod identifiers;
#[cfg(test)]
mod running;
#[cfg(test)]
mod script_typing;
#[cfg(test)]
mod scripts;
#[cfg(test)]
mod texts;
#[cfg(test)]
mod typing;
