// Whether the memory is sound, decided for every content.
#![tactic(auto)]

mod heights;
mod sound;

pub use sound::sound_head;
