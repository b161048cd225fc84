// Levels, each made from the one before in one lent buffer; and levels that stand there, each held against the one before.
#![tactic(auto)]

pub mod alike;
pub mod by_kind;
pub mod chain;
pub mod check_block;
pub mod check_level;
pub mod check_row;
pub mod level;
pub mod row;
pub mod shape;
