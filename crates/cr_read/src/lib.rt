//! Problem files: TOML tables that say what to search.
//!
//! A problem file has the stage, the methods with their place notation, the calls, and what is asked of a touch. It
//! is read in one call, which checks everything: a file that is accepted is a whole problem, and one that is
//! refused is refused for the first check that does not hold. docs/formats.md has the keys.
//!
//! - [`read_problem`]: the problem of a file of these bytes, or why they are none (`cr_model::ProblemFault`). Its
//!   `NoMemory` says nothing of the bytes.
//!
//! The other public functions are laws: each does nothing, and its contract is what is proved of problem files.
//!
//! ```rust
//! let file = "stage = 4
//! [[method]]
//! letter = \"A\"
//! notation = \"x14x14,12\"
//! [query]
//! min = 1
//! max = 24
//! ";
//! let problem = read_problem(alloc, file.as_bytes())?;
//! assert_eq!(rt; problem.stage().number(), 4);
//! assert_eq!(rt; problem.leads().len(), 1);
//! ```
#![tactic(auto)]

mod calls;
mod file;
mod file_parts;
mod key_fault;
mod key_table;
mod keys;
mod laws;
mod leads;
mod letters;
mod problem;
mod query;
mod reader;
mod spellings;
mod values;

pub use laws::{
    a_file_is_taken_or_refused, a_file_of_ten_lines, bytes_have_one_answer, faults_of_keys,
    faults_of_methods_and_calls, faults_of_queries, leads_are_in_order_and_whole, steps_in_order,
    what_a_file_leaves_out,
};
pub use reader::read_problem;
