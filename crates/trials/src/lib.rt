// Trials: what is run and matched, beside what is proved.
#![tactic(auto)]

// The public manual's tables and worked figures.
mod manual;
// Bad input for format and the label.
mod bad_input;
// Piles of devices.
mod layers_over;
// Caches in types of a caller's own.
mod held_caches;
// The calls on devices that are always sound.
#[cfg(test)]
mod sound_calls;
