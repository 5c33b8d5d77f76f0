// What the text of a patch is, as its format says it: plain scalars, flow collections and what a line
// says, as relations of a text. Laws: block text is read so, both ways, and the commands of a patch
// speak of the patterns that its texts spell. Definitions and laws alone.
#![tactic(auto)]

mod laws;

pub use laws::{
    content_law, cut_law, flow_list_law, flow_mapping_law, line_law, pattern_law, plain_law,
    spoken_law, value_law,
};
