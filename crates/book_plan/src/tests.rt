//! A settled book. Worked scripts of events, and random ones beside the plain program, run in `grid_fills`.

mod flights;
