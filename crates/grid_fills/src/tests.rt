//! Books whose jobs are filled: worked scripts of events, and random ones beside the plain program.

mod altitudes;
mod events;
mod keeper;
mod levels;
mod looks;
mod one_level;
mod random;
mod scripts;
