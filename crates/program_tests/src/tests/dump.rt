// Worked examples.
mod colors;
mod dumps;
mod faults;
mod forms;
mod golden;
mod named;
mod names;
mod naming;
mod skipped;
mod symbols;
mod trees;
