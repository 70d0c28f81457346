#![tactic(auto)]

//! Runs a tape: reads its commands one after the other, makes them, and answers each.

mod answer;
mod desk;
mod host;
mod line;
mod played;
mod playing;
mod stage;
mod task;

pub use answer::TapeAnswer;
pub use host::HostFault;
pub use played::Played;
pub use playing::play;
