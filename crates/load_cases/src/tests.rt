//! The cases, by what they are of.
mod loads;
mod words;
