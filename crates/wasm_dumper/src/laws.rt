//! What holds of the lines of a dump.
ghost use Rattle.wasm_grammar.specs.Reading.{Report};
ghost use Rattle.wasm_dumper.specs.Chosen.{BeginAlike};

/// The line of an event begins with its text in a listing, after which only the name of its section comes, or the
/// number of its function.
pub fn lines_begin_with_the_listing()
    // Proved: the line of an event begins with its text in a listing [`laws::lines_begin_with_the_listing`
    //   (`BeginAlike`)]
    // Proved: only the name of its section comes after that, or the number of its function and perhaps one name in
    //   quotes [the same; `Tree::first_of_function` (`AddsFirst`)]
    ensures { (report : Report) → BeginAlike report }
{}
