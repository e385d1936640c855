// The numbered replies, and the checks in their order.
#![tactic(auto)]

mod refusal;
mod reply;

pub use refusal::Refusal;
pub use reply::Reply;
