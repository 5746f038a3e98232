//! Worked scripts of events, and flights.

mod altitudes;
mod flights;
mod histories;
mod levels;
mod one_level;
mod regions;
mod scripts;
