// Faults, the calls of a reader, and sections by the calls that read them. Tables of rows are in `test_rows`.
mod checks;
mod errors;
mod limits;
mod owned;
mod reader;
mod refusals;
mod sections;
mod subsections;
