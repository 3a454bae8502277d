//! The lead heads, rows and leads of a problem by numbers: how they are found, once, before the search.

pub mod covers;
pub mod growing;
pub mod heads;
pub mod leads;
pub mod path_limits;
pub mod pattern_rows;
pub mod proposed;
pub mod records;
pub mod representatives;
pub mod room;
pub mod rotated_patterns;
pub mod row_names;
pub mod row_numbers;
pub mod rung_leads;
pub mod rung_patterns;
pub mod stopped;
pub mod table;
pub mod told_rows;
