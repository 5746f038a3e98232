//! Scripts that are read, and scripts that aren't.
mod lines;
mod scripts;
mod writing;
