//! Rounds of a flight, by any number of passes, and a draw and a fill that meet.

mod desk;
mod flights;
mod meeting;
