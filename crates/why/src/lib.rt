// Why a record is refused (02, "Why was this report dropped?"): the reason that a receive would have, with the facts that bear
// on it. Asking changes nothing, and no secret, key or expected Finished is shown.
#![tactic(auto)]

mod ask;
mod contents;
mod framing;
mod hello;
mod opening;
mod reason;

pub use ask::why;
pub use reason::{Reason, Under, Why, number};
