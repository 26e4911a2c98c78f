// The kernels as C functions: one module for each kernel. A function that can be refused has two forms: `_refusal` gives the refusal's number or 0,
// `_value` the number or 0. A C name stands for one type, so a kernel has a function here for each.
#![tactic(auto)]

pub mod batch;
pub mod bits;
pub mod card_table;
pub mod logs;
pub mod one_record;
pub mod roots;
pub mod signed_forms;
pub mod streams;
