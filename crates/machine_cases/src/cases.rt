//! The cases, by what they try.

mod assembler;
mod boxed;
mod clint;
mod counters;
mod counting;
mod disk;
mod drivers;
mod hart;
mod machine;
mod memory_map;
mod nics;
mod pages;
mod queue;
mod ram;
mod registers;
mod running;
mod uart;
mod walks;
