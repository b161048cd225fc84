// Levels of a picture that lies in a lent buffer: their sizes, the chain and its check, the view, the cut and the cross.
#![tactic(auto)]

pub mod bytes;
pub mod chain;
pub mod check;
pub mod cross;
pub mod cut;
pub mod layout;
pub mod lent;
pub mod level;
pub mod picture;
pub mod refusals;
pub mod sizes;
pub mod view;
pub mod walk;
