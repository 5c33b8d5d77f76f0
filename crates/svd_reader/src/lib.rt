// Descriptions (CMSIS-SVD 1.3): the bytes of one to the state that it describes, or to the first fault in
// it.

#![tactic(auto)]

mod double_names;
mod element;
mod fault;
mod field;
mod first_fault;
mod kept;
mod peripheral;
mod reader;
mod register;
mod values;

pub use fault::SvdFault;
pub use reader::read_device;
