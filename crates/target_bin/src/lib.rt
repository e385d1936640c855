// The chambers: the lent tables and their checks, fresh chambers, and the return of a section.
#![tactic(auto)]

mod chamber;
mod checks;
mod freshen;
mod push_available_bin_section;
mod returns;

pub use chamber::TargetBin;
pub use checks::{check_tables, find_chamber, known_chamber};
pub use freshen::fresh;
pub use returns::return_section;
