//! One table of results in sixteen shards. Each shard is a book behind a turnstile, and seats work at the table through passes:
//! each call is one step of the history of its key's shard, which all seats share.
#![tactic(auto)]

mod calls;
mod closing;
mod dealing;
mod desk;
mod lending;
mod lists;
mod making;
mod memo;
mod parts;
mod places;
mod shard;

pub use closing::MemoCloseRefused;
pub use desk::{Desk, Loan};
pub use lists::{Books, MemoPassList};
pub use making::shared_memo;
pub use memo::{MemoPass, SharedMemo};
pub use places::shard_of;
pub use shard::Shard;
