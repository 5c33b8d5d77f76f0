// Block text, the subset of YAML that patches are written in, line by line: what each line says, an
// item, a key or an entry of scalars and flow collections, at which indent, and the first line that
// has not the form.

#![tactic(auto)]

mod block;
mod build;
mod content;
mod fault;
mod flow;
mod keys;
mod line;
mod lines;
mod node;
mod pass;
mod quoted;
mod refusal;
mod scalar;
mod space;
mod value;

pub use block::{one_answer, one_mapping, one_node, read_block};
pub use content::Content;
pub use fault::BlockFault;
pub use line::Line;
pub use lines::{Found, read_lines};
pub use node::{Entries, Items, Node};
pub use quoted::quotes_as_spelled;
pub use value::Value;
