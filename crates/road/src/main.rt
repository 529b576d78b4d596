// Reads a history file from standard input and prints its report.
#![tactic(auto)]

fn main(rt: HostRuntime) {
    let mut input = [0u8; files::LONGEST];
    let Ok(n) = console::take(&mut rt.stdin(), &mut input) else {
        console::complain(&rt.stderr(), b"road: standard input cannot be read\n");
        return;
    };
    let mut out = [0u8; 131072];
    let printed = report::road(&input[..n], &mut out);
    console::print(&rt, &rt.stderr(), &out, printed.rows);
}
