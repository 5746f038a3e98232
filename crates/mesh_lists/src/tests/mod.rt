//! Texts and their lists.
mod texts;
