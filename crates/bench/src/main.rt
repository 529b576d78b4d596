// bench REGISTER ALLOWANCE: reads a history file from standard input and prints the marks of a register, and the orders of the fresh ones.
#![tactic(auto)]

fn main(rt: HostRuntime) {
    if !console::is_given(&rt, 2) || console::is_given(&rt, 3) {
        console::complain(&rt.stderr(), b"usage: bench REGISTER ALLOWANCE <HISTORY\n");
        return;
    }
    let Some(register) = console::number(&rt, 1) else {
        console::complain(
            &rt.stderr(),
            b"bench: REGISTER is not a decimal number of 64 bits\n",
        );
        return;
    };
    let Some(allowance) = console::number(&rt, 2) else {
        console::complain(
            &rt.stderr(),
            b"bench: ALLOWANCE is not a decimal number of 64 bits\n",
        );
        return;
    };
    let mut input = [0u8; files::LONGEST];
    let Ok(n) = console::take(&mut rt.stdin(), &mut input) else {
        console::complain(&rt.stderr(), b"bench: standard input cannot be read\n");
        return;
    };
    let mut out = [0u8; 65536];
    let printed = file_sheets::bench(&input[..n], register, allowance, &mut out);
    console::print(&rt, &rt.stderr(), &out, printed.rows);
}
