//! The cases, by what they are of.
mod elf;
mod files;
mod numbers;
mod plans;
mod records;
mod types;
