// The sections of one list of six words each: searches, the space that is shared and a refusal and a reply that hand it on, the sum of their volumes, removal,
// append, clearing and copying.
#![tactic(auto)]

mod available;
mod common_reply;
mod first;
mod near;
mod volumes;

pub use available::{append_section, clear_past, copy_sections, remove_section};
pub use common_reply::{CommonRefusal, CommonReply};
pub use first::{first_outside, first_shared};
pub use near::{first_common, first_sharing};
pub use volumes::sum_of_volumes;
