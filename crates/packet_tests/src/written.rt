// Inputs and lines written as text.
use hex::{FromHexError, decode};
use report::report;
use std::alloc::Global;

// Whether a case holds: `NAME: INPUT -> LINES`, and the input gives the lines.
fn holds(heap: Global, case: &str) -> Result<bool, FromHexError> {
    let Some((_, rest)) = case.split_once(": ") else {
        return Ok(false);
    };
    let Some((input, lines)) = rest.split_once(" -> ") else {
        return Ok(false);
    };
    let text = report(heap, decode(heap, input)?.as_slice())?;
    Ok(text.as_str() == lines.replace(heap, '/', "\n")?.as_str())
}

// The cases of a table that do not hold, or are not written as cases. Crate table_tests has the same: one function for both would take
// the test as a closure, in a crate of its own, and its contract could say nothing of so many answers.
pub(crate) fn failing(heap: Global, table: &str) -> Result<String, FromHexError> {
    let mut cases = String::new(heap);
    for case in table.lines() {
        if !holds(heap, case)? {
            cases.push_str(case)?;
            cases.push('\n')?;
        }
    }
    Ok(cases)
}
