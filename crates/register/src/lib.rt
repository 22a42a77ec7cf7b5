// Users, and the registers that give each user a limit: how many calls he may have on hold.
// To the crates above it promises that two users are told apart exactly, and that a register answers the limit that it means, at most
// 7, whatever is read before. It uses the faults of `text`.
#![tactic(auto)]

mod general;
mod refusal;
mod register;
mod table;
mod user;
mod words;

pub use general::General;
pub use register::Register;
pub use table::{Entry, Table};
pub use user::{User, user_laws};
