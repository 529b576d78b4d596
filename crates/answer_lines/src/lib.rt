// Lines that the programs which execute known cases print: an answer with its name, and a list. The functions promise nothing, as no contract
// can say what the system takes; what is printed is compared with a file.
#![tactic(auto)]

use history::Answer;
use std::io::Print;

// A number behind a comma.
pub fn field<R: Print>(rt: &R, n: u64) {
    let _ = rt.write_all(b",");
    let _ = rt.print(n);
}

// An answer, on a line of its own behind its name.
pub fn show<R: Print>(rt: &R, name: &[u8], a: Answer) {
    let _ = rt.write_all(name);
    field(rt, a.code);
    field(rt, a.row);
    field(rt, a.rows);
    field(rt, a.trials);
    let _ = rt.write_all(b"\n");
}

// A list, on a line of its own.
pub fn places<R: Print>(rt: &R, list: &[u64]) {
    for place in list {
        field(rt, *place);
    }
    let _ = rt.write_all(b"\n");
}
