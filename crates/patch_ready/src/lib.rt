// What the commands of a patch hold beside what their types say: elements that are added side by side have names of their own,
// and a new name is a name. A definition, and the law that block text which meets its demands spells no others.
#![tactic(auto)]

mod law;

pub use law::ready_law;
